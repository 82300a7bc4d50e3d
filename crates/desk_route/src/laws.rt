//! Laws of the interface: each is the contract of a function that does nothing.
ghost use Rattle.std.specs.Prelude.{◌≡◌};
ghost use Rattle.desk_wire.specs.declared.rules.Request.{Request};
ghost use Rattle.desk_base.specs.declared.asked.answers.Command.{Command};
ghost use Rattle.desk_route.specs.declared.requests.Routed.{Routed};
ghost use Rattle.desk_route.specs.Requesting.{Reads};
ghost use Rattle.desk_route.specs.Exchanges.{IsRequested};

use desk_json::laws::{changes_are_of_listed_forms, texts_have_one_cursor};

/// A request is read in one way: as one command, or as one refusal.
pub fn requests_have_one_reading()
    ensures { (request : Request) (r s : Routed) → Reads request r → Reads request s → r ≡ s }
{
    texts_have_one_cursor();
}

/// What a request asks for is a question, or a change that a body can ask for.
pub fn requests_ask_for_listed_commands()
    ensures { (request : Request) (command : Command) → Reads request (Routed.Command command) → IsRequested command }
{
    changes_are_of_listed_forms();
}
