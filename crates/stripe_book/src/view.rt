//! What the seats at a stripe's table know. No value of these types is made.
use histories::Entry;
use std::collections::LinkedList;

/// How far a caller is with a call.
pub enum Phase {
    /// No call is under way.
    Idle,
    /// A call was begun, and has no entry yet.
    Begun,
    /// The call's entry stands in the history.
    Entered,
}

/// A caller's number, what it has seen of the history, and its own calls.
pub struct Trace {
    pub number: u64,
    pub seen: LinkedList<Entry>,
    pub mine: LinkedList<Entry>,
}

/// What one seat told another: the history as the book had it, or a caller's lists.
pub enum Note {
    OfBook(LinkedList<Entry>),
    OfCaller(Trace),
}

/// What the book knows.
pub struct Ledger {
    pub history: LinkedList<Entry>,
    /// How many callers were made.
    pub made: u64,
    pub notes: LinkedList<Note>,
    /// The callers that have left.
    pub left: LinkedList<Trace>,
}

/// What a caller knows.
pub struct Hand {
    pub trace: Trace,
    pub phase: Phase,
    pub notes: LinkedList<Note>,
}

/// What a seat knows: it is the book's, a caller's or a note, or its knowledge went to another seat.
pub enum View {
    Keeps(Ledger),
    Calls(Hand),
    Tells(Note),
    Spent,
}
