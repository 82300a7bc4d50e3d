//! Trees of groups, node by node and leaf by leaf, and the order of their faults.
use crate::shown::is_shown;
use std::alloc::Global;
use std::test::Fail;

// The fields of a body that puts a group with this tree.
fn with_tree(alloc: Global, tree: &str) -> Result<String, Fail> {
    Ok(format!(in alloc;
        ",\"id\":1,\"name\":\"G\",\"from\":\"2025-01-06T08:00Z\",\"to\":\"2025-01-06T12:00Z\",\"step\":60,\"tree\":{tree}"
    )?)
}

const PLAIN: &str = r#"{"leaf":{"duration":60,"effort":1}}"#;

#[test]
fn trees_are_read(rt: HostRuntime) -> Result<(), Fail> {
    let cases = [
        (r#"{"all":[]}"#, "0 All None;"),
        (r#"{"any":[],"same":"crew"}"#, "0 Any Crew;"),
        (
            r#"{"leaf":{"duration":60,"effort":1}}"#,
            "0 Leaf None;(60 0 1||||||||none)",
        ),
        (
            r#"{"all":[{"leaf":{"duration":1,"effort":1}},{"any":[{"leaf":{"duration":2,"effort":1}},{"all":[{"leaf":{"duration":3,"effort":1}}],"same":"crew"}],"same":"site"},{"leaf":{"duration":4,"effort":1}}],"same":"unit"}"#,
            "0 All Unit;1 Leaf None;1 Any Site;2 Leaf None;2 All Crew;3 Leaf None;1 Leaf None;(1 0 1||||||||none)(2 0 1||||||||none)(3 0 1||||||||none)(4 0 1||||||||none)",
        ),
        (
            r#"{"leaf":{"window":["2025-01-06T08:00Z","2025-01-06T09:30Z"],"restricted":[9],"required":[7,8],"units":[6],"territories":[4,5],"characteristics":[[2,10],[3,0]],"roles":[1],"kinds":["user","pool"],"effort":2,"offset":30,"duration":60}}"#,
            "0 Leaf None;(60 30 2|User Pool |1 |2:10 3:0 |4 5 |6 |7 8 |9 |28935840 to 28935930)",
        ),
    ];
    for (tree, text) in cases {
        let fields = with_tree(rt.alloc(), tree)?;
        let text = format!(in rt.alloc(); "7 1 put group 1 G 28935840 28936080 60 {text}")?;
        assert!(rt;
            is_shown(rt.alloc(), "put_group", fields.as_str(), text.as_str())?,
            "at {tree}"
        );
    }
    Ok(())
}

#[test]
fn faults_of_trees_are_in_order(rt: HostRuntime) -> Result<(), Fail> {
    let cases = [
        // a node's form
        (r#"[]"#, "Sort"),
        (r#"{}"#, "Missing"),
        (r#"{"same":"unit"}"#, "Missing"),
        (r#"{"all":{}}"#, "Sort"),
        (r#"{"all":null,"same":"x"}"#, "Sort"),
        (r#"{"leaf":[],"same":"x"}"#, "Sort"),
        // what is to be the same
        (r#"{"all":[],"same":null,"x":0}"#, "Sort"),
        (r#"{"all":[],"same":"none","x":0}"#, "Range"),
        // other names: a second form is one, and so is `same` beside a leaf
        (r#"{"all":[0],"x":0}"#, "Unknown"),
        (r#"{"all":[],"any":[]}"#, "Unknown"),
        (r#"{"any":[],"leaf":{}}"#, "Unknown"),
        (
            r#"{"leaf":{"duration":60,"effort":1},"same":"unit"}"#,
            "Unknown",
        ),
        (r#"{"leaf":{"duration":null},"x":0}"#, "Unknown"),
        // a node's own faults come before those of the nodes under it, and those before what follows
        (r#"{"all":[{"any":[0]},{}]}"#, "Sort"),
        (r#"{"all":[{"any":[{}]},0]}"#, "Missing"),
        (r#"{"all":[{"any":[{}],"x":0},0]}"#, "Unknown"),
        (r#"{"all":[{"leaf":{"duration":-1}},{}]}"#, "Range"),
        // the fields of a leaf in the order of its type
        (r#"{"leaf":{"kinds":0}}"#, "Missing"),
        (
            r#"{"leaf":{"duration":60,"effort":1,"kinds":["chief"],"roles":0}}"#,
            "Range",
        ),
        (
            r#"{"leaf":{"duration":60,"effort":1,"kinds":"user","roles":[0]}}"#,
            "Sort",
        ),
        (
            r#"{"leaf":{"duration":60,"effort":1,"roles":[0],"characteristics":0}}"#,
            "Range",
        ),
        (
            r#"{"leaf":{"duration":60,"effort":1,"characteristics":[[1,2,3]],"territories":[0]}}"#,
            "Sort",
        ),
        (
            r#"{"leaf":{"duration":60,"effort":1,"characteristics":[[1,256]],"territories":0}}"#,
            "Range",
        ),
        (
            r#"{"leaf":{"duration":60,"effort":1,"territories":[null],"units":[0]}}"#,
            "Sort",
        ),
        (
            r#"{"leaf":{"duration":60,"effort":1,"units":[0],"required":0}}"#,
            "Range",
        ),
        (
            r#"{"leaf":{"duration":60,"effort":1,"required":0,"restricted":[0]}}"#,
            "Sort",
        ),
        (
            r#"{"leaf":{"duration":60,"effort":1,"restricted":[1000000000],"window":0}}"#,
            "Range",
        ),
        (
            r#"{"leaf":{"duration":60,"effort":1,"window":["2025-01-06"],"x":0}}"#,
            "Sort",
        ),
        (
            r#"{"leaf":{"duration":60,"effort":1,"window":["2025-01-06","x"],"x":0}}"#,
            "Moment",
        ),
        (
            r#"{"leaf":{"duration":60,"effort":1,"window":null}}"#,
            "Sort",
        ),
        (r#"{"leaf":{"duration":60,"effort":1,"x":0}}"#, "Unknown"),
    ];
    for (tree, rule) in cases {
        let fields = with_tree(rt.alloc(), tree)?;
        let fault = format!(in rt.alloc(); "{rule} Tree")?;
        assert!(rt;
            is_shown(rt.alloc(), "put_group", fields.as_str(), fault.as_str())?,
            "at {tree}"
        );
    }
    Ok(())
}

#[test]
fn faults_of_groups_are_in_order(rt: HostRuntime) -> Result<(), Fail> {
    let rest = r#","tree":0,"x":0"#;
    let cases = [
        (r#","id":0"#, "Range Id"),
        (r#","id":1"#, "Missing Name"),
        (r#","id":1,"name":"G","from":"x""#, "Moment From"),
        (
            r#","id":1,"name":"G","from":"2025-01-06T08:00Z","to":0"#,
            "Sort To",
        ),
        (
            r#","id":1,"name":"G","from":"2025-01-06T08:00Z","to":"2025-01-06T08:00Z","step":65536"#,
            "Range Step",
        ),
        (
            r#","id":1,"name":"G","from":"2025-01-06T08:00Z","to":"2025-01-06T08:00Z","step":0"#,
            "Sort Tree",
        ),
    ];
    for (fields, fault) in cases {
        let fields = format!(in rt.alloc(); "{fields}{rest}")?;
        assert!(rt;
            is_shown(rt.alloc(), "put_group", fields.as_str(), fault)?,
            "at {fields}"
        );
    }
    let whole = with_tree(rt.alloc(), PLAIN)?;
    let with_more = format!(in rt.alloc(); "{whole},\"rows\":[]")?;
    assert!(rt; is_shown(rt.alloc(), "put_group", with_more.as_str(), "Unknown Other")?);
    Ok(())
}
