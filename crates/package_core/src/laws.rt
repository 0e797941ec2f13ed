//! Laws of packages.
ghost use Rattle.std.specs.Prelude.{◌≡◌, ◌<◌, ◌^◌, ◌++◌, ℕ, List, None, Some, codes, true, false, IsTrue};
ghost use Rattle.std.specs.Cmp.{IsTotalOrder};
ghost use Rattle.std.specs.Ordering.{ordering_reverse, ordering_then, is_eq};
ghost use Rattle.std.specs.declared.cmp.Ordering.TheVariants.{Less, Equal};
ghost use Rattle.std.specs.Fmt.{decimal};
ghost use Rattle.ap_text.specs.Decimals.{is_number};
ghost use Rattle.ap_text.specs.Paths.{is_safe_path};
ghost use Rattle.control_stanza.specs.declared.stanza.Field.{Field};
ghost use Rattle.control_stanza.specs.Fields.{is_stanza, value_of};
ghost use Rattle.control_stanza.specs.Written.{stanza_text};
ghost use Rattle.package_core.specs.Card.{Card, IsPackage, card_of, path_in, said_in, file_text, package_text};
ghost use Rattle.package_core.specs.Faults.{fault_of};
ghost use Rattle.package_core.specs.Fields.{is_other, is_file_path, last_segment};
ghost use Rattle.package_core.specs.Order.{package_cmp, triple_cmp, body_cmp, same_triple, IsTwin};
ghost use Rattle.package_core.specs.SourceParts.{SourcesAreFound};
ghost use Rattle.package_core.specs.Whole.{IsWhole, fields_at};

/// The order of packages is total: it answers the other way round for the other order of its arguments, it is transitive,
/// and packages that are equal in it compare alike with every third.
pub fn package_order_is_total()
    ensures reversed { (a : Card) (b : Card) → package_cmp a b ≡ ordering_reverse (package_cmp b a) }
    ensures transitive { (a : Card) (b : Card) (c : Card) → package_cmp a b ≡ Less → package_cmp b c ≡ Less → package_cmp a c ≡ Less }
    ensures alike { (a : Card) (b : Card) (c : Card) → package_cmp a b ≡ Equal → package_cmp a c ≡ package_cmp b c }
{}

/// Equal in the order are exactly the packages that are one in all that it looks at. Where both are packages of stanzas,
/// they then are one in all but what is said of the file beside its SHA-256.
pub fn equal_packages_are_twins()
    ensures twins { (a : Card) (b : Card) → package_cmp a b ≡ Equal → IsTwin a b }
    ensures equal { (a : Card) (b : Card) → IsTwin a b → package_cmp a b ≡ Equal }
    ensures one { (a : Card) (b : Card) → IsPackage a → IsPackage b → package_cmp a b ≡ Equal → record a { said = b.said } ≡ b }
{}

/// Having one name, version text and architecture is equality in the order by name, architecture, version and version
/// text, by which the order of packages begins; so packages that clash are neighbours in a sorted list.
pub fn triples_begin_the_order()
    ensures same { (a : Card) (b : Card) → same_triple a b ≡ is_eq (triple_cmp a b) }
    ensures total { IsTotalOrder triple_cmp }
    ensures begins { (a : Card) (b : Card) → package_cmp a b ≡ ordering_then (triple_cmp a b) (body_cmp a b) }
{}

/// The text of a package of which all is known is that of no other.
pub fn texts_tell_packages_apart()
    ensures { (a : Card) (b : Card) → IsWhole a → IsWhole b → package_text a ≡ package_text b → a ≡ b }
{}

/// The lines on the file of a package of which all is known, at any safe path, end its stanza: with them it is a stanza
/// still, whose text is that of its own fields and then those lines; and where the path has at most 700 bytes, it has no
/// fault and describes the package, its file named by the path's last segment, and that path.
pub fn file_lines_end_a_stanza()
    ensures stanza { (path : List ℕ) (p : Card) → IsTrue (is_safe_path path) → IsWhole p → is_stanza (fields_at path p) ≡ true }
    ensures text { (path : List ℕ) (p : Card) → IsTrue (is_safe_path path) → IsWhole p → stanza_text (fields_at path p) ≡ stanza_text p.stanza ++ file_text path p.said }
    ensures good { (path : List ℕ) (p : Card) → IsTrue (is_file_path path) → IsWhole p → fault_of (fields_at path p) ≡ None }
    ensures package { (path : List ℕ) (p : Card) → IsTrue (is_file_path path) → IsWhole p → card_of (fields_at path p) ≡ record p { file = last_segment path } }
    ensures path { (path : List ℕ) (p : Card) → IsTrue (is_file_path path) → IsWhole p → path_in (fields_at path p) ≡ path }
{}

/// What is found of the source in a field Source is what the field names (Debian Policy 5.6.1), and it names one at most.
pub fn sources_are_found()
    ensures { SourcesAreFound }
{}

/// The size that a stanza says is the number below 2^64 whose decimal digits its field Size has.
pub fn sizes_are_decimals()
    ensures written { (fields : List Field) (n : ℕ) → n < 2 ^ 64 → value_of fields (codes "Size") ≡ Some (decimal n) → (is_other is_number (value_of fields (codes "Size")) ≡ false) × ((said_in fields).size ≡ n) }
    ensures only { (fields : List Field) → fault_of fields ≡ None → value_of fields (codes "Size") ≡ Some (decimal (said_in fields).size) }
{}
