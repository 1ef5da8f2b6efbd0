//! What the entries of a route say of its answer.
ghost use Rattle.std.specs.Prelude.{◌≡◌, ◌↔◌, ◌≤◌, ℕ, List, Some, Ok, IsErr, Result, length, true, false};
ghost use Rattle.std.specs.List.{list_any};
ghost use Rattle.push_model.specs.declared.entry.NoMemory.{NoMemory};
ghost use Rattle.push_model.specs.declared.ids.Op.{Op};
ghost use Rattle.push_model.specs.declared.ids.Token.{Token};
ghost use Rattle.push_model.specs.declared.ids.MsgId.{MsgId};
ghost use Rattle.push_model.specs.AskValue.{AskValue};
ghost use Rattle.push_model.specs.DeskViews.{Made};
ghost use Rattle.endpoint_router.specs.declared.answer.Answer.{Answer};
ghost use Rattle.endpoint_router.specs.declared.answer.Answer.TheVariants.{Created, Gone, Full, IdsSpent};
ghost use Rattle.endpoint_router.specs.Routes.{IsRoute};
ghost use Rattle.endpoint_router.specs.Causes.{begun_id, says_full, says_gone, says_spent, says_stored, says_taken};

/// A route makes at most 9 entries. It answers `Created` exactly where its flight ended with 201, with the id of its own
/// Begin's reply and the ttl that was asked; `Gone` exactly where Begin replied `NoToken` or Store ended the flight with 410;
/// `Full` exactly where Store ended it with 503; and `IdsSpent` exactly where Begin replied so. Memory is wanted only where
/// nothing was stored.
pub fn routes_answer_by_their_entries()
    ensures few { (k : ℕ) (o : Op) (now : ℕ) (t : Token) (ask : AskValue) (answer : Result Answer NoMemory) (ms : List Made) → IsRoute k o now t ask answer ms → length ms ≤ 9 }
    ensures created { (k : ℕ) (o : Op) (now : ℕ) (t : Token) (ask : AskValue) (answer : Result Answer NoMemory) (ms : List Made) → IsRoute k o now t ask answer ms → ((i : MsgId) × (answer ≡ Ok (Created i ask.terms.ttl))) ↔ (list_any (λ m. says_taken ask.terms.ttl m.reply) ms ≡ true) }
    ensures id { (k : ℕ) (o : Op) (now : ℕ) (t : Token) (ask : AskValue) (answer : Result Answer NoMemory) (ms : List Made) → IsRoute k o now t ask answer ms → (i : MsgId) (ttl : ℕ) → answer ≡ Ok (Created i ttl) → (begun_id ms ≡ Some i) × (ttl ≡ ask.terms.ttl) }
    ensures gone { (k : ℕ) (o : Op) (now : ℕ) (t : Token) (ask : AskValue) (answer : Result Answer NoMemory) (ms : List Made) → IsRoute k o now t ask answer ms → (answer ≡ Ok Gone) ↔ (list_any (λ m. says_gone m.reply) ms ≡ true) }
    ensures full { (k : ℕ) (o : Op) (now : ℕ) (t : Token) (ask : AskValue) (answer : Result Answer NoMemory) (ms : List Made) → IsRoute k o now t ask answer ms → (answer ≡ Ok Full) ↔ (list_any (λ m. says_full m.reply) ms ≡ true) }
    ensures spent { (k : ℕ) (o : Op) (now : ℕ) (t : Token) (ask : AskValue) (answer : Result Answer NoMemory) (ms : List Made) → IsRoute k o now t ask answer ms → (answer ≡ Ok IdsSpent) ↔ (list_any (λ m. says_spent m.reply) ms ≡ true) }
    ensures wanted { (k : ℕ) (o : Op) (now : ℕ) (t : Token) (ask : AskValue) (answer : Result Answer NoMemory) (ms : List Made) → IsRoute k o now t ask answer ms → IsErr answer → list_any (λ m. says_stored m.reply) ms ≡ false }
{}
