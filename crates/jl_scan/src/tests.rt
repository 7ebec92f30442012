ghost use Rattle.std.specs.Prelude.{◌≡◌, ℕ, ◌<◌, ◌≤◌, ◌^◌, List, length};
ghost use Rattle.jl_rows.specs.Heads.{ArePassed};
ghost use Rattle.jl_scan.specs.Files.{IsFile, field_of};

use crate::{File, Published, Scan, Scanned, blocks, laws};
use jl_base::{Fault, Space, Span};
use jl_cells::{Cells, Pass};
use jl_frames::{Plan, index};
use jl_rows::{Options, TRIPLES};
use jl_sym::Steps;
use jl_tape::Tape;
use std::alloc::{AllocError, Global};
use std::marker::Brand;
use std::process::Abort;
use std::sync::ledger::{Blank, Ledger};
use std::test::Fail;

#[test]
fn blocks_are_counted(rt: HostRuntime) -> Result<(), Fail> {
    let counts = [
        blocks(0),
        blocks(1),
        blocks(2),
        blocks(3),
        blocks(4),
        blocks(11),
        blocks(64),
        blocks(1 << 32),
    ];
    assert_eq!(rt; counts, [0, 1, 3, 4, 7, 19, 127, 8589934591]);
    Ok(())
}

// 64 frames, each with an entry of the third name.
fn sixty_four_frames(alloc: Global) -> Result<Space, AllocError> {
    let mut bytes = Vec::new(alloc);
    for _i in 0..64u32 {
        bytes.extend_from_slice(b"\x09\x0A\x07\x4A\x05\x08\x03\x12\x01y")?;
    }
    Space::from_bytes(alloc, &bytes)
}

fn tables_of_eight() -> Options
    ensures { (bytes : List ℕ) → ArePassed bytes result }
{
    Options {
        stream_name: Span { at: 0, len: 0 },
        physical: TRIPLES,
        generalized: false,
        star: false,
        names: 8,
        prefixes: 8,
        datatypes: 8,
        logical: 0,
        version: 1,
        strict: false,
    }
}

// What stops a state on its way from one run to another, beginning as the file's first.
fn reached<F: Scanned, L: Ledger>(
    alloc: Global,
    scan: &Scan<'_, F>,
    pass: &mut Pass<Published<F>>,
    steps: &mut Steps<L>,
    from: u64,
    to: u64,
) -> Result<Option<Fault>, AllocError>
    requires file { IsFile scan.now.file }
    requires cells { pass.old.cells ≡ scan.now.cells }
    requires order { from ≤ to }
    requires within { to ≤ scan.now.runs }
    requires steps { steps.old ≤ 2 ^ 62 }
    ensures { pass.new.cells ≡ pass.old.cells }
{
    laws::runs();
    laws::frames();
    let mut state = Box::new(alloc, scan.opening(alloc)?)?;
    scan.reach(alloc, pass, steps, from, to, &mut state)
}

// A way counts so many steps, and has no fault.
fn counts<F: Scanned, L: Ledger>(
    rt: &impl Abort,
    alloc: Global,
    scan: &Scan<'_, F>,
    pass: &mut Pass<Published<F>>,
    steps: &mut Steps<L>,
    from: u64,
    to: u64,
    wanted: u64,
) -> Result<(), Fail>
    requires file { IsFile scan.now.file }
    requires cells { pass.old.cells ≡ scan.now.cells }
    requires order { from ≤ to }
    requires within { to ≤ scan.now.runs }
    requires wanted { wanted ≤ 64 }
    ensures { pass.new.cells ≡ pass.old.cells }
{
    let before = steps.count();
    assert!(rt; before <= 1000);
    let fault = reached(alloc, scan, pass, steps, from, to)?;
    assert_eq!(rt; fault, None);
    assert_eq!(rt; steps.count(), before + wanted);
    Ok(())
}

// One caller goes to run 40, on to the last run, and to run 40 again; another one then finds it all there.
fn two_callers<F: Scanned, L: Ledger>(
    rt: &impl Abort,
    alloc: Global,
    scan: &Scan<'_, F>,
    steps: &mut Steps<L>,
) -> Result<(), Fail>
    requires file { IsFile scan.now.file }
    requires runs { scan.now.runs ≡ 64 }
{
    let mut pass = scan.pass(alloc)?;
    counts(rt, alloc, scan, &mut pass, steps, 0, 40, 40)?;
    assert!(rt; scan.known(&pass, 5, 0) && scan.known(&pass, 3, 4));
    counts(rt, alloc, scan, &mut pass, steps, 40, 64, 24)?;
    assert!(rt; scan.known(&pass, 3, 5) && scan.known(&pass, 4, 3));
    counts(rt, alloc, scan, &mut pass, steps, 0, 40, 0)?;
    let mut other = scan.pass(alloc)?;
    counts(rt, alloc, scan, &mut other, steps, 0, 40, 0)
}

// The walk to a run is known.
fn known_to<F: Scanned, L: Ledger>(
    alloc: Global,
    scan: &Scan<'_, F>,
    pass: &mut Pass<Published<F>>,
    steps: &mut Steps<L>,
    to: u64,
) -> Result<(), AllocError>
    requires file { IsFile scan.now.file }
    requires cells { pass.old.cells ≡ scan.now.cells }
    requires within { to ≤ scan.now.runs }
    requires steps { steps.old ≤ 2 ^ 62 }
    ensures { pass.new.cells ≡ pass.old.cells }
{
    laws::runs();
    laws::frames();
    scan.know(alloc, pass, steps, to)
}

// One caller gives away what run 3 does, and then needs 39 runs more.
fn own_run_first<F: Scanned, L: Ledger>(
    rt: &impl Abort,
    alloc: Global,
    scan: &Scan<'_, F>,
    steps: &mut Steps<L>,
) -> Result<(), Fail>
    requires file { IsFile scan.now.file }
    requires runs { scan.now.runs ≡ 64 }
{
    let before = steps.count();
    assert!(rt; before <= 1000);
    let mut pass = scan.pass(alloc)?;
    let mut tape = Tape::new(alloc);
    let fault = scan.read(&mut tape, 3)?;
    scan.publish(alloc, &mut pass, 3, &tape, fault)?;
    assert!(rt; scan.known(&pass, 0, 3));
    known_to(alloc, scan, &mut pass, steps, 40)?;
    assert!(rt; scan.known(&pass, 5, 0) && scan.known(&pass, 3, 4));
    assert_eq!(rt; steps.count(), before + 39);
    Ok(())
}

// Whoever makes a scan is generic in what it is of, and makes the cells inside.
fn with_scans<F: Scanned, L: Ledger>(
    rt: &impl Abort,
    alloc: Global,
    file: File<'_>,
    blank: Blank,
) -> Result<(), Fail>
    requires file { IsFile file }
    requires field { F.field ≡ field_of file 0 }
    requires runs { length file.plan.now ≡ 64 }
    requires name { blank.name ≡ L.name }
    requires parts { blank.parts ≡ L.parts }
    requires some { 0 < blank.parts }
{
    let mut steps = Steps::<L>::new(blank);
    let scan: Scan<'_, F> = Scan::new(file, 0, 64, Cells::new(alloc, blocks(64))?);
    two_callers(rt, alloc, &scan, &mut steps)?;
    let scan: Scan<'_, F> = Scan::new(file, 0, 64, Cells::new(alloc, blocks(64))?);
    own_run_first(rt, alloc, &scan, &mut steps)
}

#[test]
fn callers_share_blocks(rt: HostRuntime) -> Result<(), Fail> {
    let alloc = rt.alloc();
    let space = sixty_four_frames(alloc)?;
    assert!(rt; space.bytes().len() <= 1000);
    let frames = index(alloc, &space)?;
    let plan = Plan::cut(alloc, &frames, 1)?;
    assert!(rt; plan.runs() == 64);
    let options = tables_of_eight();
    let file = File {
        space: &space,
        frames: &frames,
        plan: &plan,
        options: &options,
    };
    with_scans::<Brand, Brand>(&rt, alloc, file, Blank::new(1))
}
