// A device of files.
ghost use Rattle.std.specs.Prelude.{◌≡◌, ℕ, List, Option, IfOk};
ghost use Rattle.std.specs.Option.{ForSome};
ghost use Rattle.std.specs.FinMap as map;
ghost use Rattle.lint_outside.specs.declared.outside.Question.{Question};
ghost use Rattle.lint_outside.specs.declared.outside.Question.TheVariants as question;
ghost use Rattle.lint_outside.specs.FileTree.{FileTree};
ghost use Rattle.lint_outside.specs.Held.{kind_of, content_of, listing_of, HasAtMostBytes, HasAtMostNames};
ghost use Rattle.lint_outside.specs.Causes.{HasCause, failed_after};

use crate::{Content, FilesFault, Kind, Listing};
use lint_values::Text;
use std::alloc::Global;

/// A device of files. A path is a text with `/` between its parts.
pub trait Files {
    /// What it holds, where it tells that: no call changes it.
    ghost held: { Self → Option FileTree };

    /// How often it has failed. The count never falls, and stands still at 2 ^ 64 - 1.
    ghost faults: { Self → ℕ };

    /// The questions that have failed, in order, where it tells what it holds.
    ghost failed: { Self → List Question };

    /// What stands at a path. It may want memory at any time.
    fn look(&mut self, path: &Text) -> Result<Kind, FilesFault>
        ensures held { held self.new ≡ held self.old }
        ensures cause { HasCause (faults self.old) (faults self.new) result }
        ensures answer { ForSome (held self.old) (λ tree. IfOk result (λ kind. kind ≡ kind_of (map.get tree path.now))) }
        ensures failed { ForSome (held self.old) (λ tree. failed self.new ≡ failed_after (failed self.old) (question.Look path.now) result) };

    /// The names in a folder, if they are no more than `most`.
    fn names(&mut self, alloc: Global, path: &Text, most: u32) -> Result<Listing, FilesFault>
        requires { ForSome (held self.old) (λ tree. kind_of (map.get tree path.now) ≡ Kind.Folder) }
        ensures held { held self.new ≡ held self.old }
        ensures cause { HasCause (faults self.old) (faults self.new) result }
        ensures answer { ForSome (held self.old) (λ tree. IfOk result (λ listing. listing ≡ listing_of most (map.get tree path.now))) }
        ensures most { IfOk result (HasAtMostNames most) }
        ensures failed { ForSome (held self.old) (λ tree. failed self.new ≡ failed_after (failed self.old) (question.Names path.now) result) };

    /// A file's bytes, if they are no more than `most`.
    fn read(&mut self, alloc: Global, path: &Text, most: u32) -> Result<Content, FilesFault>
        requires { ForSome (held self.old) (λ tree. kind_of (map.get tree path.now) ≡ Kind.File) }
        ensures held { held self.new ≡ held self.old }
        ensures cause { HasCause (faults self.old) (faults self.new) result }
        ensures answer { ForSome (held self.old) (λ tree. IfOk result (λ content. content ≡ content_of most (map.get tree path.now))) }
        ensures most { IfOk result (HasAtMostBytes most) }
        ensures failed { ForSome (held self.old) (λ tree. failed self.new ≡ failed_after (failed self.old) (question.Read path.now) result) };
}
