//! A report in memory.

ghost use denote.Ref.{Bor};
ghost use Rattle.std.specs.Prelude.{◌≡◌, ℕ, ◌+◌, ◌<◌, ◌≤◌, List, length, option_map, slice_get, vec_capacity, OnOk, OnErr, IfOk};
ghost use Rattle.std.specs.String.{string_bytes, string_capacity};
ghost use Rattle.mkv_memory.specs.Cuts.{AreBoundaries, AreOrdered, EndAt};

use mkv_io::{Failed, Report};
use std::alloc::{AllocError, Global};
use std::collections::BTreeSet;

/// Report in memory. Its lines are visible to the proof, and chosen calls fail, and calls without room. Calls of `say`
/// are counted from 0.
#[derive(Drop)]
pub struct MemReport {
    text: String,
    /// Offsets that divide `text` into lines, beginning with 0.
    cuts: Vec<usize>,
    lines_left: u32,
    octets_left: u64,
    failing: BTreeSet<u64>,
    calls: u64,
    faults: u64,
    ghost boundaries: { AreBoundaries (string_bytes text) cuts.items },
    ghost ordered: { AreOrdered cuts.items },
    ghost end: { EndAt cuts.items (length (string_bytes text)) },
    ghost room_for_lines: { length cuts.items + lines_left ≤ vec_capacity cuts },
    ghost room_for_octets: { length (string_bytes text) + octets_left ≤ string_capacity text },
}

impl MemReport {
    ghost use Rattle.mkv_memory.specs.SeenReport.{no_lines, with_failure, with_line};
    ghost use Rattle.mkv_memory.specs.ReportIn.{seen};

    /// Returns a report without lines, for tests, with room for `lines` lines and `octets` bytes in all. No call is set
    /// to fail.
    pub fn new(alloc: Global, lines: u32, octets: u64) -> Result<MemReport, AllocError>
        ensures { IfOk result (λ report. seen report ≡ no_lines lines octets) }
    {
        let text = String::with_capacity(alloc, octets as usize)?;
        let mut cuts = Vec::with_capacity(alloc, lines as usize + 1)?;
        cuts.push(0).unwrap();
        Ok(MemReport {
            text,
            cuts,
            lines_left: lines,
            octets_left: octets,
            failing: BTreeSet::new(alloc),
            calls: 0,
            faults: 0,
        })
    }

    /// Sets the call of `say` with the number `call`, counted from 0, to fail. Tests choose the call by it.
    pub fn fail_at(&mut self, call: u64) -> Result<(), AllocError>
        ensures ok { OnOk result (seen self.new ≡ with_failure (seen self.old) call) }
        ensures err { OnErr result (seen self.new ≡ seen self.old) }
    {
        self.failing.insert(call)?;
        Ok(())
    }

    /// Returns the line with the number `k`, counted from 0, or None if there are fewer lines. Tests read the messages
    /// by it.
    pub fn line(&self, k: usize) -> Option<&str>
        ensures { option_map (λ (line : Bor (List ℕ)). line.now) result ≡ slice_get (seen self.now).lines k }
    {
        if k >= self.cuts.len() - 1 {
            return None;
        }
        Some(&self.text.as_str()[self.cuts[k]..self.cuts[k + 1]])
    }

    /// Appends `line` to the report, which has room for it in memory. `say` calls it.
    fn add_line(&mut self, line: &str)
        requires lines { 0 < (seen self.old).lines_left }
        requires octets { length line.now ≤ (seen self.old).octets_left }
        ensures { seen self.new ≡ with_line (seen self.old) line.now }
    {
        self.text.push_str(line).unwrap();
        self.cuts.push(self.text.len()).unwrap();
        self.lines_left -= 1;
        self.octets_left -= line.len() as u64;
    }
}

impl Report for MemReport {
    ghost use Rattle.std.specs.Prelude.{Some};
    ghost use Rattle.mkv_io.specs.Faults.{HasCause, is_failure};
    ghost use Rattle.mkv_memory.specs.SeenReport.{SaysLine};
    ghost use Rattle.mkv_memory.specs.ReportIn.{seen};

    ghost lines = { λ r. Some (seen r).lines };

    ghost faults = { λ r. r.faults };

    /// Appends `line`, a message of a command, to the report, or fails if the call must fail or there is no room.
    fn say(&mut self, line: &str) -> Result<(), Failed>
        ensures exact { SaysLine (seen self.old) line.now result (seen self.new) }
        ensures cause { HasCause is_failure (seen self.old).faults (seen self.new).faults result }
    {
        let is_to_fail = self.failing.contains(&self.calls);
        self.calls = self.calls.saturating_add(1);
        if is_to_fail || self.lines_left == 0 || self.octets_left < line.len() as u64 {
            self.faults = self.faults.saturating_add(1);
            return Err(Failed);
        }
        self.add_line(line);
        Ok(())
    }
}
