// What a worker passes before each file.
use lint_values::FileId;

/// What a worker passes before each file. It tells nothing, and may let the worker wait.
pub trait Gate: Sync {
    fn pass(&self, file: FileId);
}

/// A gate that is always open.
#[derive(Clone, Copy, Debug)]
pub struct OpenGate;

impl Gate for OpenGate {
    fn pass(&self, _file: FileId) {}
}
