// Which bytes may stand where, and UTF-8.
#![tactic(auto)]

pub mod classes; // classes.rt: classes of bytes
pub mod utf8; // utf8.rt: UTF-8

// A class of bytes. A locale's part is made of the bytes of a key.
#[derive(Clone, Copy)]
pub enum Class {
    Key,
    Group,
    Space,
    Blank,
}

// Which ASCII bytes stand beside the others: those of a value, or those of text to set.
#[derive(Clone, Copy)]
pub enum Content {
    Value,
    Text,
}

// What UTF-8 has yet to bring: nothing, as a character may begin, or the rest of one that was begun, a byte from low to high and after it
// so many from 0x80 to 0xBF.
#[derive(Clone, Copy)]
pub enum Due {
    Start,
    Tail { more: u8, low: u8, high: u8 },
}
