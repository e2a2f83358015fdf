// What is asked of devices, and what they answer.

use je_base::Units;

/// What a device is for.
#[derive(Clone, Copy, PartialEq, Eq)]
pub enum Kind {
    /// Prints texts.
    Console,
    /// Keeps a number.
    Cell,
    /// Tells a time, which goes on by a step with each answer.
    Clock,
    /// Hands out the texts that wait in it, the first one first.
    Inbox,
    /// Keeps texts under keys.
    Store,
}

/// What is asked of a device. Texts and numbers alone go out, never references.
#[derive(Drop)]
pub enum Request {
    /// A console prints a text.
    Print { text: Units },
    /// A cell gives its number.
    GetNumber,
    /// A cell keeps another number.
    SetNumber { number: i64 },
    /// A clock tells its time.
    Now,
    /// An inbox hands out a text.
    Next,
    /// A store gives the text that it keeps under a key.
    GetText { key: Units },
    /// A store keeps a text under a key.
    PutText { key: Units, text: Units },
}

/// What a device answers.
#[derive(Drop)]
pub enum DeviceAnswer {
    /// It is done.
    Void,
    /// A number.
    Number(i64),
    /// A text, of at most 65,536 UTF-16 units.
    Text(Units),
    /// There is no text.
    NoText,
    /// It is refused, for the reason of this number.
    Refused(i32),
}
