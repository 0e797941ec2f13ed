ghost use Rattle.std.specs.Prelude.{◌≡◌, ◌↔◌, ℕ, List, Some};
ghost use Rattle.depends_field.specs.declared.alternative.Alternative.{Alternative};
ghost use Rattle.depends_field.specs.declared.phase.Kind.{Kind};
ghost use Rattle.depends_field.specs.Field.{groups_in, provides_in};
ghost use Rattle.depends_field.specs.Groups.{Groups, ProvidesText};

/// The law that a field says one list of groups at most.
pub fn fields_have_one_reading()
    ensures { (kind : Kind) → (text : List ℕ) → (groups : List (List Alternative)) → (others : List (List Alternative)) → Groups kind text groups → Groups kind text others → groups ≡ others }
{}

/// The law that what a field says, as a function of its text, is what the grammar says.
pub fn fields_say_their_groups()
    ensures groups { (kind : Kind) → (text : List ℕ) → (groups : List (List Alternative)) → (groups_in kind text ≡ Some groups) ↔ Groups kind text groups }
    ensures provides { (text : List ℕ) → (list : List Alternative) → (provides_in text ≡ Some list) ↔ ProvidesText text list }
{}
