//! Damaged places that an output track has met up to now, by link

ghost use Rattle.std.specs.Prelude.{◌≡◌};
ghost use Rattle.std.specs.List.{slice_get};
ghost use Rattle.lanes.specs.Told.{link_damages, more_of};

use cluster_reader::Damages;
use mkv_io::Damage;

/// Damaged place in the file of a link
#[derive(Clone, Copy, Debug, PartialEq, Eq)]
pub struct LinkDamage {
    /// Number of the link in its output track, counted from 0
    pub link: usize,
    pub damage: Damage,
}

/// Returns the damaged place with the number `k`, counted from 0, among the ones in `told` that are reported one by
/// one, or None if there are fewer. They are counted link after link; `told` has an item for each link of an output
/// track. `Lane::damage` calls it.
pub fn damage_at(told: &[Damages], k: usize) -> Option<LinkDamage>
    ensures { result ≡ slice_get (link_damages told.now) k }
{
    let mut left = k;
    for (link, damages) in told.iter().enumerate() {
        let first = damages.first();
        if left < first.len() {
            return Some(LinkDamage {
                link,
                damage: first[left],
            });
        }
        left -= first.len();
    }
    None
}

/// Returns the number of damaged places of the link with the number `link`, counted from 0, that aren't reported one by
/// one, or 0 if there is no such link. `told` has an item for each link of an output track. `Lane::more` calls it.
pub fn more_of(told: &[Damages], link: usize) -> u64
    ensures { result ≡ more_of told.now link }
{
    match told.get(link) {
        Some(damages) => damages.more(),
        None => 0,
    }
}
