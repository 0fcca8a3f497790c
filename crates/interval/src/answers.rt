// What each operation comes to: the requests after it, and the outcome.
use crate::Requests;

// A struct and not a pair, since specs name the fields.
#[derive(Clone, Copy)]
pub struct After<T> {
    pub requests: Requests,
    pub outcome: T,
}

#[derive(Clone, Copy)]
pub enum DefineError {
    Invalid,
    NotUnique,
    NoSpace,
}

pub type Defined = After<Result<(), DefineError>>;

#[derive(Clone, Copy)]
pub enum StartError {
    Invalid,
    WrongLength,
    UnknownProgram,
    UnknownTerminal,
    NotUnique,
    NoSpace,
}

pub type Started = After<Result<(), StartError>>;

#[derive(Clone, Copy)]
pub enum CancelError {
    Invalid,
    NotFound,
}

pub type Cancelled = After<Result<(), CancelError>>;

// The request that starts a task, and what the task runs and holds.
#[derive(Clone, Copy)]
pub struct Task {
    pub name: u64,
    pub program: u32,
    pub terminal: u32,
}

// `passed` stood before it in the line; where nothing can start, that is the whole line. A struct of its own, since specs name the fields.
#[derive(Clone, Copy)]
pub struct Dispatched {
    pub requests: Requests,
    pub passed: u32,
    pub started: Option<Task>,
}

// Of `full` bytes of data the first `len` are given, in the front of `bytes`: an array with its length beside, since it is handed over by value.
#[derive(Clone, Copy)]
pub struct Data {
    pub full: usize,
    pub len: usize,
    pub bytes: [u8; 64],
}

// None is the end of the data.
pub type Retrieved = After<Option<Data>>;
