//! The names that stand in answers: of tables, of fields and of rules.
ghost use Rattle.std.specs.Prelude.{◌≡◌};
ghost use Rattle.desk_json.specs.Words.{table_name, field_name, leaf_rule_name, tree_rule_name};

use desk_base::{Field, LeafRule, Table, TreeRule};

/// The name of a table.
pub(crate) fn table_name(table: Table) -> &'static str
    ensures { result.now ≡ table_name table }
{
    match table {
        Table::Zone => "zone",
        Table::Calendar => "calendar",
        Table::Work => "work",
        Table::Break => "break",
        Table::Day => "day",
        Table::Off => "off",
        Table::Unit => "unit",
        Table::Site => "site",
        Table::Role => "role",
        Table::Characteristic => "characteristic",
        Table::Territory => "territory",
        Table::Resource => "resource",
        Table::HasRole => "has_role",
        Table::HasCharacteristic => "has_characteristic",
        Table::HasTerritory => "has_territory",
        Table::Member => "member",
        Table::Group => "group",
        Table::Booking => "booking",
        Table::Caller => "caller",
        Table::BookingNumbers => "booking_numbers",
    }
}

/// The name of a field, as it stands in bodies and in answers.
pub fn field_name(field: Field) -> &'static str
    ensures { result.now ≡ field_name field }
{
    match field {
        Field::Name => "name",
        Field::Shifts => "shifts",
        Field::Weekday => "weekday",
        Field::To => "to",
        Field::Capacity => "capacity",
        Field::Overlap => "overlap",
        Field::Day => "day",
        Field::Id => "id",
        Field::Kind => "kind",
        Field::Calendar => "calendar",
        Field::Rating => "rating",
        Field::Group => "group",
        Field::Member => "member",
        Field::Step => "step",
        Field::Duration => "duration",
        Field::Offset => "offset",
        Field::Effort => "effort",
        Field::Kinds => "kinds",
        Field::Roles => "roles",
        Field::Characteristics => "characteristics",
        Field::Territories => "territories",
        Field::Units => "units",
        Field::Required => "required",
        Field::Restricted => "restricted",
        Field::Window => "window",
        Field::Limit => "limit",
        Field::Per => "per",
        Field::Act => "act",
        Field::Caller => "caller",
        Field::Number => "number",
        Field::Zone => "zone",
        Field::From => "from",
        Field::Resource => "resource",
        Field::Unit => "unit",
        Field::Site => "site",
        Field::What => "what",
        Field::Tree => "tree",
        Field::Start => "start",
        Field::Picks => "picks",
        Field::Body => "body",
        Field::Other => "other",
    }
}

/// The name of a rule of a leaf.
pub(crate) fn leaf_rule_name(rule: LeafRule) -> &'static str
    ensures { result.now ≡ leaf_rule_name rule }
{
    match rule {
        LeafRule::Kind => "kind",
        LeafRule::Role => "role",
        LeafRule::Characteristic => "characteristic",
        LeafRule::Territory => "territory",
        LeafRule::Unit => "unit",
        LeafRule::Required => "required",
        LeafRule::Restricted => "restricted",
        LeafRule::Window => "window",
    }
}

/// The name of a rule of a tree.
pub(crate) fn tree_rule_name(rule: TreeRule) -> &'static str
    ensures { result.now ≡ tree_rule_name rule }
{
    match rule {
        TreeRule::Empty => "empty",
        TreeRule::Nodes => "nodes",
        TreeRule::Order => "order",
        TreeRule::Depth => "depth",
        TreeRule::Childless => "childless",
        TreeRule::Leaves => "leaves",
    }
}
