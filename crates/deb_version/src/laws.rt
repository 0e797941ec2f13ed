//! Laws of the order of versions.

ghost use Rattle.std.specs.Prelude.{◌≡◌, ◌<◌, ℕ, List, length, IsTrue, codes};
ghost use Rattle.std.specs.List.{list_all};
ghost use Rattle.std.specs.Ordering.{ordering_reverse};
ghost use Rattle.std.specs.declared.cmp.Ordering.TheVariants.{Less, Equal};
ghost use Rattle.deb_version.specs.Cuts.{cuts};
ghost use Rattle.deb_version.specs.VersionOrder.{version_cmp};
ghost use Rattle.deb_version.specs.VersionText.{epoch_of, upstream_of, revision_of, is_version, is_version_byte};
ghost use Rattle.deb_version.specs.Spelling.{spelled, joined, HasNoEarlierColon, HasNoLaterHyphen, TakesTurns};

/// The order of versions is total: it answers the other way round for the other order of its arguments, it is
/// transitive, and versions that are equal in it compare alike with every third.
pub fn version_order_is_total()
    ensures reversed { (a : List ℕ) (b : List ℕ) → version_cmp a b ≡ ordering_reverse (version_cmp b a) }
    ensures transitive { (a : List ℕ) (b : List ℕ) (c : List ℕ) → version_cmp a b ≡ Less → version_cmp b c ≡ Less → version_cmp a c ≡ Less }
    ensures alike { (a : List ℕ) (b : List ℕ) (c : List ℕ) → version_cmp a b ≡ Equal → version_cmp a c ≡ version_cmp b c }
{}

/// A text is spelled by its parts, `[epoch:]upstream[-revision]`: they make it up, the epoch ends at the first colon, and
/// the revision follows the last hyphen behind it.
pub fn version_is_spelled_by_its_parts()
    ensures joined { (text : List ℕ) → spelled (epoch_of text) (upstream_of text) (revision_of text) ≡ text }
    ensures first_colon { (text : List ℕ) → HasNoEarlierColon text (epoch_of text) }
    ensures last_hyphen { (text : List ℕ) → HasNoLaterHyphen (upstream_of text) (revision_of text) }
{}

/// A version has one byte at least, and no others than letters, digits and `. + - ~ :`.
pub fn version_bytes_are_few()
    ensures some { (text : List ℕ) → IsTrue (is_version text) → 0 < length text }
    ensures bytes { (text : List ℕ) → IsTrue (is_version text) → IsTrue (list_all is_version_byte text) }
{}

/// A part of a version is made up of its cuts, in which runs of non-digits and of digits take turns.
pub fn version_part_is_made_of_its_cuts()
    ensures joined { (part : List ℕ) → joined (cuts part) ≡ part }
    ensures turns { (part : List ℕ) → TakesTurns (cuts part) }
{}

/// Versions that are equal in their order may be other texts.
pub fn equal_versions_may_differ_as_texts()
    ensures first { IsTrue (is_version (codes "1.0")) }
    ensures second { IsTrue (is_version (codes "1.00")) }
    ensures equal { version_cmp (codes "1.0") (codes "1.00") ≡ Equal }
{}
