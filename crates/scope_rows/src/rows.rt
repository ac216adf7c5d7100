// Rows: the clause of each function holds answers for some small programs.
ghost use Rattle.scope_rows.specs.Names.{NamesHold};
ghost use Rattle.scope_rows.specs.Binders.{BindersHold};
ghost use Rattle.scope_rows.specs.Reads.{ReadsHold};
ghost use Rattle.scope_rows.specs.Locals.{LocalsHold};
ghost use Rattle.scope_rows.specs.Lists.{ListsHold};
ghost use Rattle.scope_rows.specs.Stores.{StoresHold};
ghost use Rattle.scope_rows.specs.Deletes.{DeletesHold};
ghost use Rattle.scope_rows.specs.Scopes.{ScopesHold};
ghost use Rattle.scope_rows.specs.Places.{PlacesHold};

/// Names are read as Python reads them: as written, or as private names of a class.
pub fn names_are_read_as_in_python()
    ensures { NamesHold }
{}

/// The nodes that bind a name bind it in the scope in which Python does.
pub fn names_are_bound_as_in_python()
    ensures { BindersHold }
{}

/// Reads lead where Python has them lead.
pub fn reads_lead_as_in_python()
    ensures { ReadsHold }
{}

/// The names of a scope are those that are local to it by Python's symbol table.
pub fn names_are_local_as_in_python()
    ensures { LocalsHold }
{}

/// The lists of the nodes that bind, read, store and delete a name are those of Python's syntax tree.
pub fn lists_are_as_in_python()
    ensures { ListsHold }
{}

/// The attributes that are stored are those that Python's syntax tree stores.
pub fn attributes_are_stored_as_in_python()
    ensures { StoresHold }
{}

/// The attributes that are deleted are those that Python's syntax tree deletes.
pub fn attributes_are_deleted_as_in_python()
    ensures { DeletesHold }
{}

/// The nodes that open a scope, and the scopes around, are those of Python's symbol table.
pub fn scopes_are_opened_as_in_python()
    ensures { ScopesHold }
{}

/// Nodes stand in the scopes in which Python has them.
pub fn nodes_stand_as_in_python()
    ensures { PlacesHold }
{}
