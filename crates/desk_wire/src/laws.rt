//! What follows from the definitions alone, for whoever reasons about a conversation.
ghost use Rattle.std.specs.Prelude.{◌≡◌, ℕ, List, ◌++◌};
ghost use Rattle.desk_wire.specs.Requests.{Requests, End, clean, IsWhole, IsBad, IsTooLarge};
ghost use Rattle.desk_wire.specs.declared.rules.Request.{Request};
ghost use Rattle.desk_wire.specs.declared.rules.HeadRule.{HeadRule};
ghost use Rattle.desk_wire.specs.declared.rules.WireLimit.{WireLimit};

/// The bytes have one list of requests, so it does not matter how they are cut into pieces.
pub fn one_reading()
    ensures { (bytes : List ℕ) (qs ps : List Request) (e f : End) → Requests bytes qs e → Requests bytes ps f → qs ≡ ps }
{}

/// What stands at the front stays there, whatever bytes follow: a whole request, and each refusal.
pub fn fronts_stay()
    ensures whole { (bytes more : List ℕ) (q : Request) (rest : List ℕ) → IsWhole bytes q rest → IsWhole (bytes ++ more) q (rest ++ more) }
    ensures bad { (bytes more : List ℕ) (rule : HeadRule) → IsBad bytes rule → IsBad (bytes ++ more) rule }
    ensures too_large { (bytes more : List ℕ) (limit : WireLimit) → IsTooLarge bytes limit → IsTooLarge (bytes ++ more) limit }
{}

/// An input that ends at a request's border has no other end.
pub fn one_border()
    ensures { (bytes : List ℕ) (qs ps : List Request) (f : End) → Requests bytes qs clean → Requests bytes ps f → f ≡ clean }
{}
