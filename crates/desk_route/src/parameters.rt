//! The parameters of routes, and what is asked by them together.
ghost use Rattle.std.specs.Prelude.{◌≡◌, bytes_eq};
ghost use Rattle.desk_route.specs.Parameters.{parameter_name, parameter_of, named, nothing_asked, is_given, with_value};

use crate::refusals::Parameter;
use desk_base::{Cursor, Minute};

/// A parameter of a route, by the form of its value.
#[derive(Clone, Copy, Debug)]
pub(crate) enum Form {
    /// A number of rows.
    Limit,
    /// A cursor.
    After,
    /// `latest`.
    Latest,
    /// A moment.
    From,
    /// A moment.
    To,
    /// A number of rows.
    Per,
    /// A revision, which is given as `from`.
    Above,
}

/// A value, with the parameter that it is given to.
#[derive(Debug, Drop)]
pub(crate) enum Value {
    Limit(u32),
    After(Cursor),
    Latest,
    From(Minute),
    To(Minute),
    Per(u32),
    Above(u64),
}

/// What a query asks.
#[derive(Debug, Drop)]
pub(crate) struct Asked {
    pub(crate) limit: Option<u32>,
    pub(crate) after: Option<Cursor>,
    pub(crate) latest: bool,
    pub(crate) from: Option<Minute>,
    pub(crate) to: Option<Minute>,
    pub(crate) per: Option<u32>,
    pub(crate) above: Option<u64>,
}

/// The parameters of the rows of a group.
pub(crate) const ROWS: [Form; 6] = [
    Form::Limit,
    Form::After,
    Form::Latest,
    Form::From,
    Form::To,
    Form::Per,
];

/// The parameter of the journal.
pub(crate) const JOURNAL: [Form; 1] = [Form::Above];

/// The name of a parameter.
pub(crate) fn parameter_name(parameter: Parameter) -> &'static str
    ensures { result.now ≡ parameter_name parameter }
{
    match parameter {
        Parameter::Id => "id",
        Parameter::Limit => "limit",
        Parameter::After => "after",
        Parameter::At => "at",
        Parameter::From => "from",
        Parameter::To => "to",
        Parameter::Per => "per",
        Parameter::Other => "other",
    }
}

/// The parameter that has this form.
pub(crate) fn parameter_of(form: Form) -> Parameter
    ensures { result ≡ parameter_of form }
{
    match form {
        Form::Limit => Parameter::Limit,
        Form::After => Parameter::After,
        Form::Latest => Parameter::At,
        Form::From => Parameter::From,
        Form::To => Parameter::To,
        Form::Per => Parameter::Per,
        Form::Above => Parameter::From,
    }
}

fn is_named(form: Form, name: &str) -> bool
    ensures { result ≡ bytes_eq (parameter_name (parameter_of form)) name.now }
{
    parameter_name(parameter_of(form)) == name
}

/// The parameter of that name among these, if there is one.
#[tactic(auto, unfolding(crate::specs::Parameters::named))]
pub(crate) fn named(forms: &[Form], name: &str) -> Option<Form>
    ensures { result ≡ named forms.now name.now }
{
    for form in forms {
        if is_named(*form, name) {
            return Some(*form);
        }
    }
    None
}

/// What is asked where no parameter is given.
pub(crate) fn nothing_asked() -> Asked
    ensures { result ≡ nothing_asked }
{
    Asked {
        limit: None,
        after: None,
        latest: false,
        from: None,
        to: None,
        per: None,
        above: None,
    }
}

/// Whether the parameter was given.
pub(crate) fn is_given(form: Form, asked: &Asked) -> bool
    ensures { result ≡ is_given form asked.now }
{
    match form {
        Form::Limit => asked.limit.is_some(),
        Form::After => asked.after.is_some(),
        Form::Latest => asked.latest,
        Form::From => asked.from.is_some(),
        Form::To => asked.to.is_some(),
        Form::Per => asked.per.is_some(),
        Form::Above => asked.above.is_some(),
    }
}

/// What is asked with one value more.
pub(crate) fn with_value(asked: Asked, value: Value) -> Asked
    ensures { result ≡ with_value asked value }
{
    match value {
        Value::Limit(limit) => Asked {
            limit: Some(limit),
            ..asked
        },
        Value::After(cursor) => Asked {
            after: Some(cursor),
            ..asked
        },
        Value::Latest => Asked {
            latest: true,
            ..asked
        },
        Value::From(from) => Asked {
            from: Some(from),
            ..asked
        },
        Value::To(to) => Asked {
            to: Some(to),
            ..asked
        },
        Value::Per(per) => Asked {
            per: Some(per),
            ..asked
        },
        Value::Above(above) => Asked {
            above: Some(above),
            ..asked
        },
    }
}
