//! The report of a trial.

ghost use Rattle.std.specs.Prelude.{◌≡◌, length, option_and_then, option_map, slice_get, vec_items};
ghost use Rattle.std.specs.List.{flat_map};
ghost use Rattle.trial_run.specs.HeldPeaks.{peak_with, peaks_held};
ghost use Rattle.trial_run.specs.Report.{counts_of};

use crate::held_rows::HeldRow;
use crate::report_rows::{Counts, ReportRow, ZonePeak};
use gk_terms::Name;
use short_texts::KeptName;
use std::marker::Model;

/// What a trial reports: a row for each recorded admission that was routed and each recorded answer
/// to a call, in the order of the record; the greatest use of each zone that the candidate
/// declares, in the order of its lines; and the counts. It lends nothing of the snapshot. A
/// contract sees it as `ReportParts`.
#[derive(Drop)]
pub struct Report {
    pub(crate) rows: Vec<Vec<HeldRow>>,
    pub(crate) zones: Vec<KeptName>,
    pub(crate) tops: Vec<u64>,
    pub(crate) counts: Counts,
}

impl Model for Report {
    ghost use Rattle.std.specs.Prelude.{◌≡◌, vec_items};
    ghost use Rattle.std.specs.List.{flat_map};
    ghost use Rattle.trial_run.specs.Report.{ReportParts, counts_of};
    ghost use Rattle.trial_run.specs.HeldPeaks.{peaks_held};

    ghost Value = { ReportParts };

    ghost view = { λ r. record {
      rows = flat_map vec_items r.rows.items;
      peaks = peaks_held r.zones.items r.tops.items;
      counts = r.counts;
    } };

    ghost invariant = { λ r. r.counts ≡ counts_of (flat_map vec_items r.rows.items) };
}

impl Report {
    /// How many rows there are, and how many of each verdict.
    pub fn counts(&self) -> Counts
        ensures value { result ≡ self.now.counts }
        ensures sound { result ≡ counts_of self.now.rows }
    {
        self.counts
    }

    /// How many rows there are.
    pub fn row_count(&self) -> usize
        ensures { result ≡ length self.now.rows }
    {
        self.counts.rows
    }

    /// How many peaks there are: one for each zone that the candidate declares.
    #[tactic(auto, using(crate::proofs::ReportLemmas::length_peaks))]
    pub fn peak_count(&self) -> usize
        ensures { result ≡ length self.now.peaks }
    {
        self.zones.len().min(self.tops.len())
    }

    /// The row at this place, from 0.
    pub fn row(&self, place: usize) -> Option<ReportRow>
        ensures { result ≡ slice_get self.now.rows place }
    {
        row_in(self.rows.as_slice(), place)
    }

    /// The peak of the zone at this place among those that the candidate declares, from 0.
    pub fn peak(&self, place: usize) -> Option<ZonePeak>
        ensures { result ≡ slice_get self.now.peaks place }
    {
        peak_in(self.zones.as_slice(), self.tops.as_slice(), place)
    }
}

/// The row at this place in all of the pieces.
fn row_in(pieces: &[Vec<HeldRow>], place: usize) -> Option<ReportRow>
    ensures { result ≡ slice_get (flat_map vec_items pieces.now) place }
{
    let mut left = place;
    for piece in pieces {
        if left < piece.len() {
            return Some(piece[left].row());
        }
        left -= piece.len();
    }
    None
}

/// The peak at this place: a zone and its greatest use.
fn peak_in(zones: &[KeptName], tops: &[u64], place: usize) -> Option<ZonePeak>
    ensures { result ≡ slice_get (peaks_held zones.now tops.now) place }
{
    peak_of(name_at(zones, place), top_at(tops, place))
}

/// The peak of this zone, if there are both.
fn peak_of(zone: Option<Name>, units: Option<u64>) -> Option<ZonePeak>
    ensures { result ≡ option_and_then (λ zone. option_map (peak_with zone) units) zone }
{
    match (zone, units) {
        (Some(zone), Some(units)) => Some(ZonePeak { zone, units }),
        _ => None,
    }
}

/// The name at this place.
fn name_at(zones: &[KeptName], place: usize) -> Option<Name>
    ensures { result ≡ slice_get zones.now place }
{
    match zones.get(place) {
        Some(zone) => Some(zone.name()),
        None => None,
    }
}

/// The number at this place.
fn top_at(tops: &[u64], place: usize) -> Option<u64>
    ensures { result ≡ slice_get tops.now place }
{
    tops.get(place).copied()
}
