// The questions: count, reach and parts. They leave the plate as it is.
ghost use Rattle.std.specs.Prelude.{◌≡◌, List, suc, ◌/◌, ◌≤◌, length};
ghost use Rattle.shape.specs.TriangleLists.{triangles_in};
ghost use Rattle.exact.specs.Sizes.{OnGrid};
ghost use Rattle.checks.specs.Answers.{served, ◌then◌};
ghost use Rattle.checks.specs.Told.{told_check};
ghost use Rattle.predicate.specs.Told.{told_verdict};
ghost use Rattle.slots.specs.Slots.{Slot};
ghost use Rattle.slots.specs.Parts.{triangles_of};
ghost use Rattle.slots.specs.Counting.{marks_strike};
ghost use Rattle.slots.specs.Showing.{Shown};
ghost use Rattle.reasons.specs.Rules.{shell_closed, shell_checks};
ghost use Rattle.plate.specs.Deciding.{either_inside, either_in};
ghost use Rattle.plate.specs.Plates.{CountPromise, present_answer, PartsPromise};

use checks::{Reason, Refusal};
use inside::corner_inside;
use keeping::Plate;
use predicate::Verdict;
use reasons::{part_checked, present_checked};
use shells::is_open;
use slots::{GridSlots, Slots, mark_for};

// How many pairs of slots clash. It is read, not counted.
pub fn count(plate: Plate) -> u32
    ensures { CountPromise plate result }
{
    plate.count
}

// How many changes undo can still take back.
pub fn reach(plate: Plate) -> usize
    ensures { result ≡ plate.reach }
{
    plate.reach
}

// Refusal 16, of the triangles of a part.
fn closed_checked(side: u32, part: usize, shell: &[i32]) -> Result<(), Refusal>
    ensures { (S : List Slot) → triangles_in (length shell.now / 9) shell.now ≡ triangles_of part S → told_check result ≡ shell_closed side S part }
{
    if is_open(shell) {
        return Err(Refusal::new(Reason::ShellOpen, side, part));
    }
    Ok(())
}

// Whether some corner of one shell is inside the other.
fn either_inside(first: &[i32], second: &[i32]) -> bool
    requires { OnGrid first.now × OnGrid second.now }
    ensures { result ≡ either_inside (triangles_in (length first.now / 9) first.now) (triangles_in (length second.now / 9) second.now) }
{
    corner_inside(first, second) || corner_inside(second, first)
}

// The verdict on two parts whose skins don't meet: whether their shells are closed, and then their corners.
fn shells_verdict(slots: GridSlots<'_>, p: usize, q: usize) -> Result<Verdict, Refusal>
    requires { (p ≤ 15) × (q ≤ 15) }
    ensures { (S : List Slot) → Shown S slots.entry.slots.now.coords slots.entry.slots.now.marks → told_verdict result ≡ (shell_checks S p q then served (either_in S p q)) }
{
    let mut first = [0; 576];
    let mut second = [0; 576];
    let m = slots.gather_part(mark_for(p), &mut first);
    let n = slots.gather_part(mark_for(q), &mut second);
    let first = &first[..9 * m];
    let second = &second[..9 * n];
    closed_checked(0, p, first)?;
    closed_checked(1, q, second)?;
    Ok(Verdict::from(either_inside(first, second)))
}

// The verdict on two parts that are present. On no plate that calls made is a coordinate off the grid.
fn present_verdict(slots: &Slots, p: usize, q: usize) -> Result<Verdict, Refusal>
    requires { (p ≤ 15) × (q ≤ 15) }
    ensures { (S : List Slot) → Shown S slots.now.coords slots.now.marks → told_verdict result ≡ present_answer S p q (marks_strike (suc p) (suc q) S) (either_in S p q) }
{
    if p == q {
        return Ok(Verdict::Apart);
    }
    if slots.marks_strike(mark_for(p), mark_for(q)) {
        return Ok(Verdict::Meeting);
    }
    match slots.on_grid() {
        Some(on) => shells_verdict(on, p, q),
        None => Ok(Verdict::Apart),
    }
}

// Whether two parts clash.
pub fn parts(plate: Plate, p: usize, q: usize) -> Result<Verdict, Refusal>
    ensures { PartsPromise plate p q (told_verdict result) }
{
    part_checked(0, p)?;
    part_checked(1, q)?;
    present_checked(0, &plate.slots, p)?;
    present_checked(1, &plate.slots, q)?;
    present_verdict(&plate.slots, p, q)
}
