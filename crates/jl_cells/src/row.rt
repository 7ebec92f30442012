// The calls on a row of cells, over what a pass has seen of each.
ghost use Rattle.std.specs.Prelude.{◌≡◌, ◌<◌, length, map, MatchOption, None};
ghost use Rattle.std.specs.FinMap.{contains_key, get};
ghost use Rattle.once_cell.specs.Once.{cell_name};
ghost use Rattle.jl_cells.specs.Knowledge.{Keeps, Learns, Meet, knowledge_of};

use crate::sight::Sight;
use once_cell::race::OnceBox;

pub(crate) fn knows_at<T>(sights: &[Sight<T>], i: usize) -> bool
    requires { i < length sights.now }
    ensures { result ≡ contains_key (knowledge_of sights.now).known i }
{
    sights[i].is_known()
}

pub(crate) fn look_at<'a, T>(
    cells: &'a [OnceBox<T>],
    sights: &mut [Sight<T>],
    i: usize,
) -> Option<&'a T>
    requires row { map (λ s. s.cell) sights.old ≡ map cell_name cells.now }
    requires within { i < length cells.now }
    ensures value { MatchOption result
        ((get (knowledge_of sights.old).known i ≡ None) × (sights.new ≡ sights.old))
        (λ value. Learns (knowledge_of sights.old) i value.now (knowledge_of sights.new)) }
    ensures kept { Keeps (knowledge_of sights.old) (knowledge_of sights.new) }
{
    sights[i].look(&cells[i])
}

pub(crate) fn put_at<'a, T: Drop>(
    cells: &'a [OnceBox<T>],
    sights: &mut [Sight<T>],
    i: usize,
    value: Box<T>,
) -> &'a T
    requires row { map (λ s. s.cell) sights.old ≡ map cell_name cells.now }
    requires within { i < length cells.now }
    ensures value { Learns (knowledge_of sights.old) i result.now (knowledge_of sights.new) }
    ensures kept { Keeps (knowledge_of sights.old) (knowledge_of sights.new) }
{
    sights[i].put(&cells[i], value)
}

pub(crate) fn meet_all<T>(a: &mut [Sight<T>], b: &mut [Sight<T>])
    requires { map (λ s. s.cell) a.old ≡ map (λ s. s.cell) b.old }
    ensures same { (a.new ≡ a.old) × (b.new ≡ b.old) }
    ensures meet { Meet (knowledge_of a.old) (knowledge_of b.old) }
{
    for i in 0..a.len() {
        a[i].meet(&mut b[i]);
    }
}
