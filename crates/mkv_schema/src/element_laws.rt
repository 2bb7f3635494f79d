//! Laws on the Elements of every file.
ghost use Rattle.mkv_schema.specs.BodyDamage.{DamagesAreByPlace};
ghost use Rattle.mkv_schema.specs.Order.{Level1Ascends};
ghost use Rattle.mkv_schema.specs.WithoutLimits.{LimitsOnlyRefuse};

/// Law: the damage of a body depends on the place of its Element (RFC 8794, sections 6, Element Data Size, and 6.2,
/// Unknown Data Size). A promise to users; no code calls it.
pub fn damages_are_by_place()
    ensures { DamagesAreByPlace }
{}

/// Law: the Elements of level 1 follow each other in the file (RFC 8794, section 7.7, Master Element). A promise to
/// users; no code calls it.
pub fn level_1_ascends()
    ensures { Level1Ascends }
{}

/// Law: a reader's limits only refuse files. An outline that it finds is the outline of the file without limits. A
/// promise to users; no code calls it.
pub fn limits_only_refuse()
    ensures { LimitsOnlyRefuse }
{}
