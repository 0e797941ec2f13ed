//! Laws of what packages ask for and give.
ghost use Rattle.std.specs.Prelude.{◌≡◌, ◌↔◌, ℕ, List, [], codes, None, Some};
ghost use Rattle.std.specs.Ordering.{ordering_reverse};
ghost use Rattle.std.specs.declared.cmp.Ordering.TheVariants.{Less, Equal};
ghost use Rattle.control_stanza.specs.Fields.{value_of};
ghost use Rattle.depends_field.specs.declared.alternative.Alternative.{Alternative};
ghost use Rattle.depends_field.specs.Groups.{DependsText, ProvidesText};
ghost use Rattle.package_core.specs.Card.{Card};
ghost use Rattle.package_core.specs.Order.{package_cmp};
ghost use Rattle.package_relations.specs.declared.fields.RelationField.{RelationField};
ghost use Rattle.package_relations.specs.Fields.{field_name, groups_of, provided};
ghost use Rattle.package_relations.specs.Order.{by_version_cmp};

/// A package asks by a field for what the field says by the grammar of relation fields, and for nothing without that field
/// or where the field says nothing.
pub fn packages_ask_for_what_they_say()
    ensures said { (p : Card) (field : RelationField) (text : List ℕ) (groups : List (List Alternative)) → value_of p.stanza (field_name field) ≡ Some text → DependsText text groups → groups_of p field ≡ groups }
    ensures absent { (p : Card) (field : RelationField) → value_of p.stanza (field_name field) ≡ None → groups_of p field ≡ [] }
    ensures unreadable { (p : Card) (field : RelationField) (text : List ℕ) → value_of p.stanza (field_name field) ≡ Some text → ((groups : List (List Alternative)) → DependsText text groups → ⊥) → groups_of p field ≡ [] }
{}

/// A package provides what its field Provides says by the grammar of relation fields, and nothing without that field or
/// where the field says nothing.
pub fn packages_provide_what_they_say()
    ensures said { (p : Card) (text : List ℕ) (list : List Alternative) → value_of p.stanza (codes "Provides") ≡ Some text → ProvidesText text list → provided p ≡ list }
    ensures absent { (p : Card) → value_of p.stanza (codes "Provides") ≡ None → provided p ≡ [] }
    ensures unreadable { (p : Card) (text : List ℕ) → value_of p.stanza (codes "Provides") ≡ Some text → ((list : List Alternative) → ProvidesText text list → ⊥) → provided p ≡ [] }
{}

/// The order by version and then by the order of packages is total: it answers the other way round for the other order of
/// its arguments, it is transitive, and packages that are equal in it compare alike with every third. Equal in it are
/// those that are equal in the order of packages.
pub fn version_first_order_is_total()
    ensures reversed { (a : Card) (b : Card) → by_version_cmp a b ≡ ordering_reverse (by_version_cmp b a) }
    ensures transitive { (a : Card) (b : Card) (c : Card) → by_version_cmp a b ≡ Less → by_version_cmp b c ≡ Less → by_version_cmp a c ≡ Less }
    ensures alike { (a : Card) (b : Card) (c : Card) → by_version_cmp a b ≡ Equal → by_version_cmp a c ≡ by_version_cmp b c }
    ensures equal { (a : Card) (b : Card) → (by_version_cmp a b ≡ Equal) ↔ (package_cmp a b ≡ Equal) }
{}
