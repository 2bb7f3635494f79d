//! Report of a file's damaged places

ghost use Rattle.std.specs.Prelude.{[], ◌≡◌, IfOk};
ghost use Rattle.cluster_reader.specs.ToldDamages.{told_damages, with_damage};

use mkv_io::Damage;
use std::alloc::{AllocError, Global};
use std::marker::Model;

/// Maximum number of damaged places that are reported one by one
const MAX_REPORTED: usize = 100;

/// Damaged places of a file: the first hundred, and the number of others. Its memory is allocated at the start.
#[derive(Debug, Drop)]
pub struct Damages {
    first: Vec<Damage>,
    more: u64,
}

impl Model for Damages {
    ghost use Rattle.std.specs.Prelude.{◌≤◌, length, vec_capacity};
    ghost use Rattle.cluster_reader.specs.ToldDamages.{ToldDamages};

    ghost Value = { ToldDamages };

    ghost view = { λ d. record { first = d.first.items; more = d.more } };

    ghost use Rattle.cluster_reader.specs.declared.damages.TheConstants.{MAX_REPORTED};

    ghost invariant = { λ d. MAX_REPORTED ≤ vec_capacity d.first };
}

impl Damages {
    /// Returns an empty report with room for a hundred damaged places. `merge` and `extract` make one for each file
    /// whose blocks they read.
    pub fn new(alloc: Global) -> Result<Damages, AllocError>
        ensures { IfOk result (λ damages. damages ≡ told_damages []) }
    {
        Ok(Damages {
            first: Vec::with_capacity(alloc, MAX_REPORTED)?,
            more: 0,
        })
    }

    /// Adds the damaged place `damage` to the report, or only counts it after the first hundred. `merge` and `extract`
    /// add each damaged place and each bad frame that they meet.
    pub fn add(&mut self, damage: Damage)
        ensures { self.new ≡ with_damage self.old damage }
    {
        if self.first.len() < MAX_REPORTED {
            self.first.push_reserved(damage);
        } else {
            self.more = self.more.saturating_add(1);
        }
    }

    /// Returns the first hundred damaged places, in file order, for the warnings of `merge` and `extract`.
    pub fn first(&self) -> &[Damage]
        ensures { result.now ≡ self.now.first }
    {
        self.first.as_slice()
    }

    /// Returns the number of damaged places after the first hundred, at most 2^64 - 1, for a last warning.
    pub fn more(&self) -> u64
        ensures { result ≡ self.now.more }
    {
        self.more
    }
}
