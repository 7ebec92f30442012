//! What scanning tells of lines, and how two parts' tellings are one.
ghost use Rattle.std.specs.Prelude.{◌≡◌, ◌+◌, ◌<◌, ◌≤◌, ◌^◌, IfSome};
ghost use Rattle.jl_nqscan.specs.Scanning as spec;

use jl_nqread::Shape;

/// What scanning tells of a text.
#[derive(Clone, Copy, Debug, PartialEq, Eq)]
pub struct LineScan {
    /// How many statements stand before the first bad line, or in the whole text.
    pub statements: u64,
    /// Whether one of these statements has a graph.
    pub quads: bool,
    /// The number of the first line that isn't in the grammar: one more than the line feeds before it.
    pub bad: Option<u64>,
}

/// What one line tells.
pub fn one_line(shape: Shape, number: u64) -> LineScan
    ensures exact { result ≡ spec.one_line shape number }
    ensures few { result.statements ≤ 1 }
{
    let is_item = shape == Shape::Triple || shape == Shape::Quad;
    LineScan {
        statements: if is_item { 1 } else { 0 },
        quads: shape == Shape::Quad,
        bad: if shape == Shape::Bad {
            Some(number)
        } else {
            None
        },
    }
}

/// What some lines tell, and then others.
pub fn then_told(a: LineScan, b: LineScan) -> LineScan
    requires { a.statements + b.statements < 2 ^ 64 }
    ensures { result ≡ spec.then_told a b }
{
    if a.bad.is_some() {
        return a;
    }
    LineScan {
        statements: a.statements + b.statements,
        quads: a.quads || b.quads,
        bad: b.bad,
    }
}

fn moved(feeds: u64, bad: Option<u64>) -> Option<u64>
    requires { IfSome bad (λ number. feeds + number < 2 ^ 64) }
    ensures { result ≡ spec.moved feeds bad }
{
    match bad {
        Some(number) => Some(feeds + number),
        None => None,
    }
}

/// What lines tell before which so many more line feeds stand.
pub fn later(feeds: u64, a: LineScan) -> LineScan
    requires { IfSome a.bad (λ number. feeds + number < 2 ^ 64) }
    ensures { result ≡ spec.later feeds a }
{
    LineScan {
        statements: a.statements,
        quads: a.quads,
        bad: moved(feeds, a.bad),
    }
}
