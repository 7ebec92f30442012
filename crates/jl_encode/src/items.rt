//! Items, put behind the tables: their entries, and then their own row.
ghost use Rattle.std.specs.Prelude.{◌≡◌, ◌<◌, ◌+◌, ◌-◌, ◌^◌, OnOk};
ghost use Rattle.std.specs.Option.{option_map};
ghost use Rattle.jl_base.specs.Items.{item_of, value_of};
ghost use Rattle.jl_base.specs.Terms as said;
ghost use Rattle.jl_encode.specs.Lasts.{lasts_of};
ghost use Rattle.jl_encode.specs.Putting as spec;
ghost use Rattle.jl_encode.specs.Putting.{PutsItem, PutsRows, lasts_behind, put_item};

use crate::desk::Desk;
use crate::lasts::{Lasts, put_at};
use crate::refusal::Refusal;
use crate::spelling::{LIMIT, push_namespace_row, push_quad_row, push_triple_row};
use crate::stated::StatedThree;
use jl_base::{Item, Term};
use std::alloc::Global;

fn put_triple(
    alloc: Global,
    desk: &mut Desk,
    lasts: &mut Lasts,
    out: &mut Vec<u8>,
    s: &Term,
    p: &Term,
    o: &Term,
) -> Result<(), Refusal>
    ensures puts { PutsRows (put_item (said.Triple (value_of s.now) (value_of p.now) (value_of o.now)) (lasts_of lasts.old) desk.old) out.old.items out.new.items desk.new result }
    ensures kept { OnOk result (lasts_of lasts.new ≡ lasts_behind (said.Triple (value_of s.now) (value_of p.now) (value_of o.now)) (lasts_of lasts.old)) }
{
    let subject = put_at(alloc, desk, out, &mut lasts.subject, s)?;
    let predicate = put_at(alloc, desk, out, &mut lasts.predicate, p)?;
    let object = put_at(alloc, desk, out, &mut lasts.object, o)?;
    let stands = StatedThree {
        s: subject,
        p: predicate,
        o: object,
    };
    push_triple_row(out, s, p, o, &stands)
}

fn put_quad(
    alloc: Global,
    desk: &mut Desk,
    lasts: &mut Lasts,
    out: &mut Vec<u8>,
    s: &Term,
    p: &Term,
    o: &Term,
    g: &Term,
) -> Result<(), Refusal>
    ensures puts { PutsRows (put_item (said.Quad (value_of s.now) (value_of p.now) (value_of o.now) (value_of g.now)) (lasts_of lasts.old) desk.old) out.old.items out.new.items desk.new result }
    ensures kept { OnOk result (lasts_of lasts.new ≡ lasts_behind (said.Quad (value_of s.now) (value_of p.now) (value_of o.now) (value_of g.now)) (lasts_of lasts.old)) }
{
    let subject = put_at(alloc, desk, out, &mut lasts.subject, s)?;
    let predicate = put_at(alloc, desk, out, &mut lasts.predicate, p)?;
    let object = put_at(alloc, desk, out, &mut lasts.object, o)?;
    let graph = put_at(alloc, desk, out, &mut lasts.graph, g)?;
    let stands = StatedThree {
        s: subject,
        p: predicate,
        o: object,
    };
    push_quad_row(out, s, p, o, g, &stands, &graph)
}

fn put_namespace(desk: &mut Desk, out: &mut Vec<u8>, name: &[u8], iri: &[u8]) -> Result<(), Refusal>
    ensures { (l : spec.Lasts) → PutsRows (put_item (said.Namespace name.now iri.now) l desk.old) out.old.items out.new.items desk.new result }
{
    let ids = desk.put_iri(out, iri)?;
    push_namespace_row(out, name, ids)
}

fn put_rows(
    alloc: Global,
    desk: &mut Desk,
    lasts: &mut Lasts,
    out: &mut Vec<u8>,
    item: &Item,
) -> Result<(), Refusal>
    ensures puts { PutsRows (put_item (item_of item.now) (lasts_of lasts.old) desk.old) out.old.items out.new.items desk.new result }
    ensures kept { OnOk result (lasts_of lasts.new ≡ lasts_behind (item_of item.now) (lasts_of lasts.old)) }
{
    match item {
        Item::Triple(s, p, o) => put_triple(alloc, desk, lasts, out, s, p, o),
        Item::Quad(s, p, o, g) => put_quad(alloc, desk, lasts, out, s, p, o, g),
        Item::Namespace { name, iri } => put_namespace(desk, out, name.bytes(), iri.bytes()),
    }
}

/// Puts an item's rows behind those in the buffer, and makes the tables ready for the next item. The item is refused
/// where it is too wide, and then the tables and the buffer are of no use.
pub(crate) fn put_next(
    alloc: Global,
    desk: &mut Desk,
    lasts: &mut Lasts,
    out: &mut Vec<u8>,
    item: &Item,
) -> Result<(), Refusal>
    requires { desk.old.item < 2 ^ 64 - 1 }
    ensures puts { PutsItem (put_item (item_of item.now) (lasts_of lasts.old) desk.old) out.old.items out.new.items desk.new result }
    ensures number { OnOk result (desk.new.item ≡ desk.old.item + 1) }
    ensures kept { OnOk result (lasts_of lasts.new ≡ lasts_behind (item_of item.now) (lasts_of lasts.old)) }
{
    let before = out.len();
    put_rows(alloc, desk, lasts, out, item)?;
    if out.len() - before > LIMIT || desk.is_overfull() {
        return Err(Refusal::TooWide);
    }
    desk.for_next();
    Ok(())
}
