//! What chunks of rows do to the use of zones.

ghost use Rattle.std.specs.Prelude.{◌≡◌, ◌≤◌, ◌+◌, ◌==◌, ◌*◌, ◌<◌, ◌^◌, ℕ, Some, IfOk, if◌then◌else◌, map, option_map, length, slice_get};
ghost use Rattle.call_rows.specs.Moves.{move_in};
ghost use Rattle.trial_run.specs.Levels.{AreNumbered, IsBelow, flat, summary_after, summary_by, summary_of};
ghost use Rattle.trial_run.specs.Touched.{touching};

use crate::standings::Summary;
use crate::touched::Touched;
use call_rows::Step;
use std::alloc::{AllocError, Global};

/// The summary of a chunk after one more row, which adds and takes this much.
fn summary_after(summary: &Summary, gained: u32, lost: u32) -> Summary
    requires gained { summary.now.gained + gained < 2 ^ 64 }
    requires lost { summary.now.lost + lost < 2 ^ 64 }
    ensures { result ≡ summary_by gained lost summary.now }
{
    let gained = summary.gained + u64::from(gained);
    let lost = summary.lost + u64::from(lost);
    Summary {
        gained,
        lost,
        height: summary.height.max(gained.saturating_sub(lost)),
    }
}

/// Adds and takes this much at one zone, if it is there.
fn add_at(summaries: &mut [Summary], zone: u32, gained: u32, lost: u32)
    requires { IsBelow 9000000100000000000 summaries.old }
    ensures each { (place : ℕ) → slice_get summaries.new place
        ≡ option_map (λ s. if zone == place then summary_by gained lost s else s)
        (slice_get summaries.old place) }
    ensures len { length summaries.new ≡ length summaries.old }
    ensures below { (most : ℕ) → IsBelow most summaries.old
        → IsBelow (most + 4294967295) summaries.new }
{
    let place = zone as usize;
    if place < summaries.len() {
        let s = summaries[place];
        summaries[place] = summary_after(&s, gained, lost);
    }
}

/// Adds and takes what a row does at the zones that its call touches, at each of them once.
fn add_step(summaries: &mut [Summary], touched: &[Touched], step: &Step)
    requires { IsBelow 9000000000000000000 summaries.old }
    ensures each { (place : ℕ) → slice_get summaries.new place
        ≡ option_map (λ s. summary_after (touching touched.now place) s (move_in step.now))
        (slice_get summaries.old place) }
    ensures len { length summaries.new ≡ length summaries.old }
    ensures below { (most : ℕ) → IsBelow most summaries.old
        → IsBelow (most + 8589934590) summaries.new }
{
    let gained = step.gained();
    let lost = step.lost();
    if let Some(Touched::Zones { source, target }) = touched.get(step.admission() as usize) {
        add_at(summaries, *source, gained, lost);
        if *target != *source {
            add_at(summaries, *target, gained, lost);
        }
    }
}

/// Adds and takes what each row of a chunk does.
fn add_steps(summaries: &mut [Summary], touched: &[Touched], steps: &[Step])
    requires few { length steps.now ≤ 1000000 }
    requires flat { AreNumbered (length summaries.old) (λ zone. flat) summaries.old }
    ensures each { AreNumbered (length summaries.old)
        (λ zone. summary_of (touching touched.now zone) (map move_in steps.now)) summaries.new }
    ensures below { IsBelow (length steps.now * 8589934590) summaries.new }
{
    for step in steps {
        add_step(summaries, touched, step);
    }
}

/// The summary of a chunk of rows for each zone.
pub(crate) fn summaries_of(
    alloc: Global,
    zones: usize,
    steps: &[Step],
    touched: &[Touched],
) -> Result<Vec<Summary>, AllocError>
    requires { length steps.now ≤ 1000000 }
    ensures each { IfOk result (λ v. AreNumbered zones
        (λ zone. summary_of (touching touched.now zone) (map move_in steps.now)) v.items) }
    ensures below { IfOk result (λ v. IsBelow (length steps.now * 8589934590) v.items) }
{
    let mut summaries = vec![in alloc; Summary {
        gained: 0,
        lost: 0,
        height: 0
    }; zones]?;
    add_steps(&mut summaries, touched, steps);
    Ok(summaries)
}
