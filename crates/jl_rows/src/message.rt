//! The table of messages: which fields each has, what they hold, and which exclude each other.
ghost use Rattle.std.specs.Prelude.{◌≡◌, ◌<◌, IfSome};
ghost use Rattle.jl_rows.specs.Messages.{groups, known, known_as, sort_of};

use crate::row::Table;

/// The messages that stand in a row, and those that stand in them.
#[derive(Clone, Copy, Debug, PartialEq, Eq)]
pub enum Message {
    Options,
    Triple,
    Quad,
    GraphStart,
    Namespace,
    Entry,
    Iri,
    Literal,
    /// A message without known fields: a graph end, or the default graph.
    Empty,
}

/// What a known field holds: a number, a text, or a form of a term. A label is a blank node's.
#[derive(Clone, Copy, Debug, PartialEq, Eq)]
pub enum Shape {
    Number,
    Text,
    Iri,
    Label,
    Literal,
    Nested,
    Default,
}

/// A known field: its number, what it holds, and its group. Of a group one field at most stands in a message.
#[derive(Clone, Copy, Debug)]
pub struct Known {
    pub number: u32,
    pub shape: Shape,
    pub group: usize,
}

/// The kinds of rows.
#[derive(Clone, Copy, Debug)]
pub enum Sort {
    Options,
    Triple,
    Quad,
    GraphStart,
    GraphEnd,
    Namespace,
    Entry(Table),
}

/// The kind of row that a field of this number makes, where it makes one.
pub fn sort_of(number: u32) -> Option<Sort>
    ensures { result ≡ sort_of number }
{
    match number {
        1 => Some(Sort::Options),
        2 => Some(Sort::Triple),
        3 => Some(Sort::Quad),
        4 => Some(Sort::GraphStart),
        5 => Some(Sort::GraphEnd),
        6 => Some(Sort::Namespace),
        9 => Some(Sort::Entry(Table::Name)),
        10 => Some(Sort::Entry(Table::Prefix)),
        11 => Some(Sort::Entry(Table::Datatype)),
        _ => None,
    }
}

impl Message {
    /// The known field of this number, where the message has one.
    pub fn known_as(self, number: u32) -> Option<Known>
        ensures exact { result ≡ known_as self number }
        ensures small { IfSome result (λ k. k.group < groups) }
    {
        match self {
            Message::Iri => iri(number),
            Message::Literal => literal(number),
            Message::Triple => triple(number),
            Message::Quad => quad(number),
            Message::GraphStart => graph_start(number),
            Message::Namespace => namespace(number),
            Message::Entry => entry(number),
            Message::Options => options(number),
            Message::Empty => None,
        }
    }
}

fn some(number: u32, shape: Shape, group: usize) -> Option<Known>
    requires { group < groups }
    ensures exact { result ≡ Some (known number shape group) }
    ensures small { IfSome result (λ k. k.group < groups) }
{
    Some(Known {
        number,
        shape,
        group,
    })
}

fn iri(number: u32) -> Option<Known>
    ensures exact { result ≡ known_as Message.Iri number }
    ensures small { IfSome result (λ k. k.group < groups) }
{
    match number {
        1 => some(1, Shape::Number, 0),
        2 => some(2, Shape::Number, 1),
        _ => None,
    }
}

fn literal(number: u32) -> Option<Known>
    ensures exact { result ≡ known_as Message.Literal number }
    ensures small { IfSome result (λ k. k.group < groups) }
{
    match number {
        1 => some(1, Shape::Text, 0),
        2 => some(2, Shape::Text, 1),
        3 => some(3, Shape::Number, 1),
        _ => None,
    }
}

fn triple(number: u32) -> Option<Known>
    ensures exact { result ≡ known_as Message.Triple number }
    ensures small { IfSome result (λ k. k.group < groups) }
{
    match number {
        1 => some(1, Shape::Iri, 0),
        2 => some(2, Shape::Label, 0),
        3 => some(3, Shape::Literal, 0),
        4 => some(4, Shape::Nested, 0),
        5 => some(5, Shape::Iri, 1),
        6 => some(6, Shape::Label, 1),
        7 => some(7, Shape::Literal, 1),
        8 => some(8, Shape::Nested, 1),
        9 => some(9, Shape::Iri, 2),
        10 => some(10, Shape::Label, 2),
        11 => some(11, Shape::Literal, 2),
        12 => some(12, Shape::Nested, 2),
        _ => None,
    }
}

fn quad(number: u32) -> Option<Known>
    ensures exact { result ≡ known_as Message.Quad number }
    ensures small { IfSome result (λ k. k.group < groups) }
{
    match number {
        1 => some(1, Shape::Iri, 0),
        2 => some(2, Shape::Label, 0),
        3 => some(3, Shape::Literal, 0),
        4 => some(4, Shape::Nested, 0),
        5 => some(5, Shape::Iri, 1),
        6 => some(6, Shape::Label, 1),
        7 => some(7, Shape::Literal, 1),
        8 => some(8, Shape::Nested, 1),
        9 => some(9, Shape::Iri, 2),
        10 => some(10, Shape::Label, 2),
        11 => some(11, Shape::Literal, 2),
        12 => some(12, Shape::Nested, 2),
        13 => some(13, Shape::Iri, 3),
        14 => some(14, Shape::Label, 3),
        15 => some(15, Shape::Default, 3),
        16 => some(16, Shape::Literal, 3),
        _ => None,
    }
}

fn graph_start(number: u32) -> Option<Known>
    ensures exact { result ≡ known_as Message.GraphStart number }
    ensures small { IfSome result (λ k. k.group < groups) }
{
    match number {
        1 => some(1, Shape::Iri, 0),
        2 => some(2, Shape::Label, 0),
        3 => some(3, Shape::Default, 0),
        4 => some(4, Shape::Literal, 0),
        _ => None,
    }
}

fn namespace(number: u32) -> Option<Known>
    ensures exact { result ≡ known_as Message.Namespace number }
    ensures small { IfSome result (λ k. k.group < groups) }
{
    match number {
        1 => some(1, Shape::Text, 0),
        2 => some(2, Shape::Iri, 1),
        _ => None,
    }
}

fn entry(number: u32) -> Option<Known>
    ensures exact { result ≡ known_as Message.Entry number }
    ensures small { IfSome result (λ k. k.group < groups) }
{
    match number {
        1 => some(1, Shape::Number, 0),
        2 => some(2, Shape::Text, 1),
        _ => None,
    }
}

fn options(number: u32) -> Option<Known>
    ensures exact { result ≡ known_as Message.Options number }
    ensures small { IfSome result (λ k. k.group < groups) }
{
    match number {
        1 => some(1, Shape::Text, 0),
        2 => some(2, Shape::Number, 1),
        3 => some(3, Shape::Number, 2),
        4 => some(4, Shape::Number, 3),
        9 => some(9, Shape::Number, 4),
        10 => some(10, Shape::Number, 5),
        11 => some(11, Shape::Number, 6),
        14 => some(14, Shape::Number, 7),
        15 => some(15, Shape::Number, 8),
        _ => None,
    }
}
