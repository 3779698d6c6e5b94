//! Laws of the fixed source form.

ghost use Rattle.std.specs.Prelude.{◌≡◌, ◌↔◌, ℕ, true, [], List};
ghost use Rattle.std.specs.List.{All};
ghost use Rattle.f77_source.specs.declared.fault.FormFault.{FormFault};
ghost use Rattle.f77_source.specs.{CardFields, same_card, HasInitialLine, HasCardsOrFault, IsReadAs, lines, AreCards};
ghost use Rattle.f77_source.specs.{IsFirstFormFault, card_faults, written};

/// Cards that were written are read again, if each has a label or a first line that is not blank.
#[tactic(auto, using(crate::proofs::ReadBack::read_back))]
pub fn written_cards_are_read()
    ensures { (cards : List CardFields)
        → card_faults cards ≡ [] → All HasInitialLine cards → IsReadAs (written cards) cards }
{}

/// The lines of a source are one list of cards, or one of them is the first with a fault, and never both.
#[tactic(auto, using(crate::proofs::Outcomes::one_list, crate::proofs::Outcomes::one_first_fault))]
pub fn one_reading()
    ensures some { (source : List ℕ) → HasCardsOrFault source }
    ensures cards { (source : List ℕ) (cards others : List CardFields)
        → AreCards 1 (lines source) cards → AreCards 1 (lines source) others
        → cards ≡ others }
    ensures fault { (source : List ℕ) (fault other : FormFault)
        → IsFirstFormFault (lines source) fault → IsFirstFormFault (lines source) other
        → fault ≡ other }
    ensures either { (source : List ℕ) (cards : List CardFields) (fault : FormFault) → AreCards 1 (lines source) cards
        → ¬ (IsFirstFormFault (lines source) fault) }
{}

/// Two cards are equal by `==` exactly where their labels, their texts and their lines are equal.
#[tactic(auto, using(crate::specs::SameCards::same_card_decides))]
pub fn equal_cards_are_one()
    ensures { (card other : CardFields) → (same_card card other ≡ true) ↔ (card ≡ other) }
{}
