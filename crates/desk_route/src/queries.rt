//! What a query asks.
ghost use Rattle.std.specs.Prelude.{◌≡◌, string_bytes};
ghost use Rattle.desk_route.specs.Queries.{OrNoMemory, ReadsNew, ReadsPair, ReadsQuery};

use crate::parameters::{
    Asked, Form, Value, is_given, named, nothing_asked, parameter_of, with_value,
};
use crate::refusals::{Fault, Parameter, WebRefusal};
use crate::values::read_value;
use std::alloc::Global;

/// The value of a parameter, if it was not given before.
fn read_new(alloc: Global, asked: &Asked, form: Form, text: &str) -> Result<Value, Fault>
    ensures { OrNoMemory (ReadsNew asked.now form text.now) result }
{
    if is_given(form, asked) {
        Err(Fault::Refused(WebRefusal::BadParameter(parameter_of(form))))
    } else {
        read_value(alloc, form, text.as_bytes())
    }
}

/// The value that a pair gives.
fn read_pair(
    alloc: Global,
    forms: &[Form],
    asked: &Asked,
    name: &str,
    text: &str,
) -> Result<Value, Fault>
    ensures { OrNoMemory (ReadsPair forms.now asked.now (name.now, text.now)) result }
{
    match named(forms, name) {
        Some(form) => read_new(alloc, asked, form, text),
        None => Err(Fault::Refused(WebRefusal::BadParameter(Parameter::Other))),
    }
}

/// What a query asks of a route with these parameters.
pub(crate) fn read_query(alloc: Global, forms: &[Form], query: &[u8]) -> Result<Asked, Fault>
    ensures { OrNoMemory (ReadsQuery forms.now query.now) result }
{
    let mut asked = nothing_asked();
    for pair in form_urlencoded::parse(alloc, query).into_owned() {
        let (name, text) = pair?;
        match read_pair(alloc, forms, &asked, name.as_str(), text.as_str()) {
            Ok(value) => asked = with_value(asked, value),
            Err(fault) => return Err(fault),
        }
    }
    Ok(asked)
}
