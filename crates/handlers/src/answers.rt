// What the operations come to.
use crate::Tasks;

// "10 condition above 10 or label 0"
#[derive(Clone, Copy, PartialEq, Eq)]
pub struct Invalid;

// The settings after the command, and its outcome: where it is refused they are those before it.
#[derive(Clone, Copy)]
pub struct Handled {
    pub tasks: Tasks,
    pub outcome: Result<(), Invalid>,
}
