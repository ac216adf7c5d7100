// Files in memory of which chosen calls fail.
ghost use Rattle.std.specs.Prelude.{◌≡◌, ◌≤◌, ◌↔◌, [], Some, IsTrue, IsErr, IsErrOf, IfOk};
ghost use Rattle.std.specs.Option.{ForSome};
ghost use Rattle.std.specs.FinMap as map;
ghost use Rattle.lint_outside.specs.Causes.{Rose, HasCause, after_fault, failed_after};
ghost use Rattle.lint_outside.specs.Counts.{count_after, count_after_fault};
ghost use Rattle.lint_outside.specs.Held.{kind_of, content_of, listing_of, HasAtMostBytes, HasAtMostNames};
ghost use Rattle.lint_outside.specs.MemFiles.{tree_of};
ghost use Rattle.lint_outside.specs.declared.outside.Question.TheVariants as question;

use crate::{Calls, Content, Files, FilesFault, Kind, Listing, MemFiles, Question};
use lint_values::Text;
use std::alloc::Global;

/// Files in memory. The calls of `look`, `names` and `read` whose numbers, counted from 1, stand in a list fail.
#[derive(Debug, Drop)]
pub struct FailingFiles {
    inner: MemFiles,
    fail: Calls,
    made: u64,
    failed: Vec<Question>,
    faults: u64,
}

impl FailingFiles {
    ghost use Rattle.lint_outside.specs.FailingFiles.{inner_files, failing_calls, calls_made, failed_questions, files_faults, FailsNext, CountsCall};

    /// Files that answer as `inner` does but at the calls in `fail`.
    pub fn new(inner: MemFiles, fail: Calls) -> FailingFiles
        ensures inner { inner_files result ≡ inner }
        ensures calls { failing_calls result ≡ fail }
        ensures made { calls_made result ≡ 0 }
        ensures failed { failed_questions result ≡ [] }
        ensures faults { files_faults result ≡ 0 }
    {
        let failed = Vec::new(fail.alloc());
        FailingFiles {
            inner,
            fail,
            made: 0,
            failed,
            faults: 0,
        }
    }

    /// The questions that failed so far, in order.
    pub fn failed(&self) -> &[Question]
        ensures { result.now ≡ failed_questions self.now }
    {
        self.failed.as_slice()
    }

    // Counts a call, and says whether it fails.
    fn fails_now(&mut self) -> bool
        ensures fails { IsTrue result ↔ FailsNext self.old }
        ensures counted { CountsCall self.old self.new }
        ensures inner { inner_files self.new ≡ inner_files self.old }
        ensures failed { failed_questions self.new ≡ failed_questions self.old }
        ensures faults { files_faults self.new ≡ files_faults self.old }
    {
        self.made = self.made.saturating_add(1);
        self.fail.has(self.made)
    }

    // Counts a fault, and keeps its question. Where the question can't be kept, want of memory is the answer.
    fn fault(&mut self, question: Question) -> FilesFault
        ensures later { files_faults self.old ≤ files_faults self.new }
        ensures rose { result ≡ FilesFault.Failed → Rose (files_faults self.old) (files_faults self.new) }
        ensures exact { files_faults self.new ≡ count_after_fault (files_faults self.old) result }
        ensures failed { failed_questions self.new ≡ after_fault (failed_questions self.old) question result }
        ensures inner { inner_files self.new ≡ inner_files self.old }
        ensures made { calls_made self.new ≡ calls_made self.old }
        ensures calls { failing_calls self.new ≡ failing_calls self.old }
    {
        if self.failed.push(question).is_err() {
            return FilesFault::Memory;
        }
        self.faults = self.faults.saturating_add(1);
        FilesFault::Failed
    }
}

impl Files for FailingFiles {
    ghost use Rattle.std.specs.Prelude.{Some};
    ghost use Rattle.lint_outside.specs.MemFiles.{tree_of};
    ghost use Rattle.lint_outside.specs.FailingFiles.{inner_files, failed_questions, files_faults, FailsNext, CountsCall};

    ghost held = { λ files. Some (tree_of (inner_files files)) };

    ghost faults = { files_faults };

    ghost failed = { failed_questions };

    fn look(&mut self, path: &Text) -> Result<Kind, FilesFault>
        ensures held { Some (tree_of (inner_files self.new)) ≡ Some (tree_of (inner_files self.old)) }
        ensures cause { HasCause (files_faults self.old) (files_faults self.new) result }
        ensures exact { files_faults self.new ≡ count_after (files_faults self.old) result }
        ensures answer { ForSome (Some (tree_of (inner_files self.old))) (λ tree. IfOk result (λ kind. kind ≡ kind_of (map.get tree path.now))) }
        ensures failed { ForSome (Some (tree_of (inner_files self.old))) (λ tree. failed_questions self.new ≡ failed_after (failed_questions self.old) (question.Look path.now) result) }

        // It fails just at the chosen calls.
        ensures fails { IsErr result ↔ FailsNext self.old }
        ensures counted { CountsCall self.old self.new }
    {
        if self.fails_now() {
            let asked = Text::from_str(self.fail.alloc(), path.as_str())?;
            return Err(self.fault(Question::Look(asked)));
        }
        self.inner.look(path)
    }

    fn names(&mut self, alloc: Global, path: &Text, most: u32) -> Result<Listing, FilesFault>
        requires { ForSome (Some (tree_of (inner_files self.old))) (λ tree. kind_of (map.get tree path.now) ≡ Kind.Folder) }
        ensures held { Some (tree_of (inner_files self.new)) ≡ Some (tree_of (inner_files self.old)) }
        ensures cause { HasCause (files_faults self.old) (files_faults self.new) result }
        ensures exact { files_faults self.new ≡ count_after (files_faults self.old) result }
        ensures answer { ForSome (Some (tree_of (inner_files self.old))) (λ tree. IfOk result (λ listing. listing ≡ listing_of most (map.get tree path.now))) }
        ensures most { IfOk result (HasAtMostNames most) }
        ensures failed { ForSome (Some (tree_of (inner_files self.old))) (λ tree. failed_questions self.new ≡ failed_after (failed_questions self.old) (question.Names path.now) result) }

        // It fails at the chosen calls, and says so of no other.
        ensures fails { FailsNext self.old → IsErr result }
        ensures only_there { IsErrOf result FilesFault.Failed → FailsNext self.old }
        ensures counted { CountsCall self.old self.new }
    {
        if self.fails_now() {
            let asked = Text::from_str(alloc, path.as_str())?;
            return Err(self.fault(Question::Names(asked)));
        }
        self.inner.names(alloc, path, most)
    }

    fn read(&mut self, alloc: Global, path: &Text, most: u32) -> Result<Content, FilesFault>
        requires { ForSome (Some (tree_of (inner_files self.old))) (λ tree. kind_of (map.get tree path.now) ≡ Kind.File) }
        ensures held { Some (tree_of (inner_files self.new)) ≡ Some (tree_of (inner_files self.old)) }
        ensures cause { HasCause (files_faults self.old) (files_faults self.new) result }
        ensures exact { files_faults self.new ≡ count_after (files_faults self.old) result }
        ensures answer { ForSome (Some (tree_of (inner_files self.old))) (λ tree. IfOk result (λ content. content ≡ content_of most (map.get tree path.now))) }
        ensures most { IfOk result (HasAtMostBytes most) }
        ensures failed { ForSome (Some (tree_of (inner_files self.old))) (λ tree. failed_questions self.new ≡ failed_after (failed_questions self.old) (question.Read path.now) result) }

        // It fails at the chosen calls, and says so of no other.
        ensures fails { FailsNext self.old → IsErr result }
        ensures only_there { IsErrOf result FilesFault.Failed → FailsNext self.old }
        ensures counted { CountsCall self.old self.new }
    {
        if self.fails_now() {
            let asked = Text::from_str(alloc, path.as_str())?;
            return Err(self.fault(Question::Read(asked)));
        }
        self.inner.read(alloc, path, most)
    }
}
