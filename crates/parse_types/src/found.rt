// What a reading function gives.

use je_base::{Memory, Span};
use je_token::Token;

/// What was read, its height, and the tokens behind it.
#[derive(Drop)]
pub struct Found<'a, T> {
    pub tree: T,
    pub height: u32,
    pub rest: &'a [Token],
}

/// Items up to their closing bracket: the height of the highest one, the bracket, and the tokens behind it.
#[derive(Drop)]
pub struct Closed<'a, T> {
    pub items: Vec<T>,
    pub height: u32,
    pub close: Span,
    pub rest: &'a [Token],
}

/// The longest tree that begins at a place, or none; Err for want of memory alone.
pub type Read<'a, T> = Result<Option<Found<'a, T>>, Memory>;

/// Items up to their closing bracket, or none; Err for want of memory alone.
pub type ReadClosed<'a, T> = Result<Option<Closed<'a, T>>, Memory>;

/// Where an expression of at least this level is to be read.
#[derive(Clone, Copy)]
pub struct Place<'a> {
    pub tokens: &'a [Token],
    pub least: u32,
}
