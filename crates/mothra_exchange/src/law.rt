//! Theorems about the definitions, for every log, every call and every state of an exchange. Each is the
//! contract of a function that does nothing.

ghost use Rattle.std.specs.Prelude.{◌≡◌, ◌≢◌, ◌⊎◌, ℕ, ◌+◌, ◌<◌, ◌≤◌, true, false, List, slice_index};
ghost use mathlib.Core.Option.{some};
ghost use lib.ListN.{get_elem?};
ghost use Rattle.mothra_codes.specs.declared.op.Op.{Op};
ghost use Rattle.mothra_codes.specs.Op.{index};
ghost use Rattle.mothra_codes.specs.declared.ticket.Ticket.{Ticket};
ghost use Rattle.mothra_exchange.specs.declared.word.Word.{Word};
ghost use Rattle.mothra_exchange.specs.declared.view.View.{View};
ghost use Rattle.mothra_exchange.specs.declared.log.Event.TheVariants.{Closed, Offered, Handed};
ghost use Rattle.mothra_exchange.specs.declared.answer.Offer.{Offer};
ghost use Rattle.mothra_exchange.specs.declared.answer.Offer.TheVariants.{Accepted};
ghost use Rattle.mothra_exchange.specs.declared.answer.Take.{Take};
ghost use Rattle.mothra_exchange.specs.declared.answer.Take.TheVariants.{Finished, Taken};
ghost use Rattle.mothra_exchange.specs.declared.answer.Close.{Close};
ghost use Rattle.mothra_exchange.specs.declared.answer.Close.TheVariants.{Done};
ghost use Rattle.mothra_exchange.specs.Word.{AtMost, word_after_offer, word_after_take, word_after_close};
ghost use Rattle.mothra_codes.specs.Ticket.{ticket};
ghost use Rattle.mothra_exchange.specs.View.{times_closed, total, look_at, whole_part, spent_view};
ghost use Rattle.mothra_exchange.specs.View.{view_after_split, split_off_view, united_view};
ghost use Rattle.mothra_exchange.specs.Rule.{IsSoundExchange, Loads};
ghost use Rattle.mothra_exchange.specs.Answer.{offer_answer, take_answer, close_answer};
ghost use Rattle.mothra_exchange.specs.Calls.{OfferDid, TakeDid, CloseDid};
ghost use Rattle.mothra_exchange.specs.Sharing.{IsOver, MergesWell};
ghost use Rattle.mothra_exchange.specs.Log.{offers, hands, taken_in, one_to};
ghost use Rattle.mothra_exchange.specs.Law.{IsWordOf, IsOneOfViews, StandsInOne, StandsInNone, AreOneTo, ChangesOnly};
ghost use Rattle.mothra_exchange.specs.Law.{BetweenSteps, InLegalLogs, IsShownInLog, ShowsNext, ShowOneLog, ShowsLog};

/// In a legal log the tickets of an operator are handed out in order from 1, each once.
pub fn handed_in_order()
    ensures { InLegalLogs (λ C counts log. (op : Op) → taken_in (index op) log ≡ one_to (hands (index op) log)) }
{}

/// In a legal log no ticket is offered after its operator was closed.
pub fn none_offered_after_close()
    ensures { InLegalLogs (λ C counts log. (op : Op) (close offer : ℕ) (t : Ticket)
        → get_elem? log close ≡ some (Closed op) → get_elem? log offer ≡ some (Offered t)
        → t.op ≡ op → offer < close) }
{}

/// In a legal log no more tickets of an operator are handed out than were offered, no more are offered
/// than there are, and no more wait than may wait.
pub fn legal_logs_stay_in_bounds()
    ensures handed { InLegalLogs (λ C counts log. (op : Op) → hands (index op) log ≤ offers (index op) log) }
    ensures offered { InLegalLogs (λ C counts log. (op : Op) → offers (index op) log ≤ slice_index counts (index op)) }
    ensures waiting { InLegalLogs (λ C counts log. (op : Op) → offers (index op) log ≤ hands (index op) log + C) }
{}

/// Where a word shows a legal log, the word after a step that wins shows that log with the event of the
/// step at its end, and the longer log is legal.
pub fn words_follow_the_log()
    ensures offer { InLegalLogs (λ C counts log. (op : Op) (k : ℕ) (w : Word) → IsShownInLog counts log op w
        → offer_answer C k w ≡ Accepted
        → ShowsNext C counts log (Offered (ticket op k)) op (word_after_offer w)) }
    ensures take { InLegalLogs (λ C counts log. (op : Op) (t : Ticket) (w : Word) → IsShownInLog counts log op w
        → take_answer op w ≡ Taken t
        → ShowsNext C counts log (Handed t) op (word_after_take w)) }
    ensures close { InLegalLogs (λ C counts log. (op : Op) (w : Word) → IsShownInLog counts log op w
        → close_answer w ≡ Done
        → ShowsNext C counts log (Closed op) op (word_after_close w)) }
{}

/// Between any two steps the tickets taken of an operator are those from 1 to the number handed out, and
/// each stands in exactly one view.
pub fn taken_are_one_to_handed()
    ensures { BetweenSteps (λ C views op w. AreOneTo (λ v. v.taken) op w.handed views) }
{}

/// Between any two steps the tickets offered of an operator are those from 1 to the number offered, and
/// each stands in exactly one view.
pub fn offered_are_one_to_offered()
    ensures { BetweenSteps (λ C views op w. AreOneTo (λ v. v.offered) op w.offered views) }
{}

/// Between any two steps the one closing of a closed operator stands in exactly one view, with the number
/// that was offered then and is now. An open operator has no closing.
pub fn closed_once()
    ensures closed { BetweenSteps (λ C views op w. w.closed ≡ true
        → StandsInOne (λ v. times_closed (index op) w.offered v.closings) views) }
    ensures no_other { BetweenSteps (λ C views op w. (k : ℕ) → (w.closed ≡ false) ⊎ (k ≢ w.offered)
        → StandsInNone (λ v. times_closed (index op) k v.closings) views) }
{}

/// Between any two steps each operator has a word within bounds. Its count is that in every view that is
/// not spent.
pub fn words_stay_in_bounds()
    ensures word { (C : ℕ) (counts words : List ℕ) (views : List View) → IsSoundExchange C counts words views
        → (op : Op) → (w : Word) × IsWordOf words op w }
    ensures bounds { BetweenSteps (λ C views op w.
        (w.handed ≤ w.offered) × (w.offered ≤ w.count) × (w.offered ≤ w.handed + C)) }
    ensures count { BetweenSteps (λ C views op w. (v : View) → IsOneOfViews views v → v ≢ spent_view
        → slice_index v.counts (index op) ≡ w.count) }
{}

/// Where a ticket may wait, the words of all operators show one legal log between any two steps, and each
/// word that a call loads shows a legal log.
pub fn words_show_a_legal_log()
    ensures words { (C : ℕ) (counts words : List ℕ) (views : List View) → IsSoundExchange C counts words views → 0 < C
        → ShowOneLog C counts words views }
    ensures loaded { (C : ℕ) (v : View) (op : Op) (w : Word) → Loads C v (index op) w → 0 < C
        → ShowsLog C v.counts op w }
{}

/// Between any two steps no number of a word is below what any view saw of it. Where a view saw the
/// operator closed, it is closed, and no ticket was accepted since.
pub fn words_never_fall()
    ensures seen { BetweenSteps (λ C views op w. (v : View) → IsOneOfViews views v
        → AtMost (look_at v (index op)).seen w) }
    ensures closed { BetweenSteps (λ C views op w. (v : View) → IsOneOfViews views v
        → (look_at v (index op)).seen.closed ≡ true
        → (w.closed ≡ true) × (w.offered ≡ (look_at v (index op)).seen.offered)) }
    ensures parts { (C : ℕ) (counts words : List ℕ) (views : List View) → IsSoundExchange C counts words views
        → total (λ v. v.part) views ≡ whole_part }
{}

/// A take that gets ticket k found k - 1 handed out. An operator that a pass saw closed accepts no
/// ticket from that pass.
pub fn answers_follow_the_word()
    ensures take { (C : ℕ) (v : View) (op : Op) (t : Ticket) (new : View) → TakeDid C v op (Taken t) new
        → (t.op ≡ op) × ((look_at new (index op)).loaded.handed + 1 ≡ t.number) }
    ensures offer { (C : ℕ) (v : View) (t : Ticket) (new : View) → OfferDid C v t Accepted new
        → (look_at v (index t.op)).seen.closed ≡ false }
{}

/// A call on one operator changes neither the counts, nor the part, nor what the view has of the others.
pub fn calls_change_one_operator()
    ensures offer { (C : ℕ) (v : View) (t : Ticket) (a : Offer) (new : View)
        → OfferDid C v t a new → ChangesOnly t.op v new }
    ensures take { (C : ℕ) (v : View) (op : Op) (a : Take) (new : View)
        → TakeDid C v op a new → ChangesOnly op v new }
    ensures close { (C : ℕ) (v : View) (op : Op) (a : Close) (new : View)
        → CloseDid C v op a new → ChangesOnly op v new }
{}

/// An operator is over where it is closed and no ticket waits. Once a pass saw that, its takes answer
/// Finished, and both passes after a split, and the pass after a merge, saw it too. A take that answers
/// Finished saw it.
pub fn stays_over()
    ensures take { (C : ℕ) (v : View) (op : Op) (a : Take) (new : View)
        → TakeDid C v op a new → IsOver v op → a ≡ Finished }
    ensures finished { (C : ℕ) (v : View) (op : Op) (new : View)
        → TakeDid C v op Finished new → IsOver new op }
    ensures split { (v : View) (op : Op) → IsOver v op
        → IsOver (view_after_split v) op × IsOver (split_off_view v) op }
    ensures merge { (v w : View) (op : Op) → MergesWell v w
        → IsOver v op ⊎ IsOver w op → IsOver (united_view v w) op }
{}
