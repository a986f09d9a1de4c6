use scenario_rules::{Rule, ScenarioFault, read_named};
use std::test::Fail;

const CLUSTER: &str = "nodes = 3\ndrives = 2\nslots = 16\nunit = 8\n";

const FILE: &str = "file = [{ name = \"a\", level = \"2x\" }]\n";

const NO_OPERATION: &str = "actor = [{ ops = [\"no operation\"] }]\n";

#[test]
fn a_scenario_that_keeps_all_rules_is_read(rt: HostRuntime) -> Result<(), Fail> {
    let alloc = rt.alloc();
    let ops = "actor = [{ ops = [] }, { ops = [\"write a 0 fill:1:32\", \"up 3/2\"] }]\n";
    let text = format!(in alloc; "{CLUSTER}{FILE}{ops}")?;
    let scenario = read_named(alloc, text.as_str()).map_err(|_| "a scenario")?;
    assert_eq!(rt; scenario.shape.nodes(), 3);
    assert_eq!(rt; scenario.workers, 1);
    assert_eq!(rt; scenario.actors, 2);
    let file = scenario.files.as_slice().first().ok_or("a file")?;
    assert_eq!(rt; file.name.as_str(), "a");
    let last = scenario.ops.as_slice().get(1).ok_or("two operations")?;
    assert_eq!(rt; last.place.op, 2);
    Ok(())
}

/// A text in its three parts, the rule that it breaks first, the actor and the operation. The cases are those of docs/FORMATS.md,
/// "Rules of a scenario", at their limits, and two rules broken at once.
const CASES: [(&str, &str, &str, Rule, u8, u16); 23] = [
    ("nodes = \n", "", "", Rule::Toml, 0, 0),
    ("slots = 9223372036854775808\n", "", "", Rule::Toml, 0, 0),
    ("", "", "", Rule::Keys, 0, 0),
    (
        "zones = 1\nnodes = 99\ndrives = 2\nslots = 16\n",
        FILE,
        NO_OPERATION,
        Rule::Keys,
        0,
        0,
    ),
    (
        "nodes = 3.0\ndrives = 2\nslots = 16\n",
        FILE,
        NO_OPERATION,
        Rule::Keys,
        0,
        0,
    ),
    (
        CLUSTER,
        "file = [{ name = \"a\" }]\n",
        NO_OPERATION,
        Rule::Keys,
        0,
        0,
    ),
    (CLUSTER, FILE, "actor = [{ ops = [1] }]\n", Rule::Keys, 0, 0),
    (
        "nodes = 0\ndrives = 99\nslots = 16\n",
        FILE,
        NO_OPERATION,
        Rule::Range,
        0,
        0,
    ),
    (
        "nodes = 3\ndrives = 2\nslots = -1\n",
        FILE,
        NO_OPERATION,
        Rule::Range,
        0,
        0,
    ),
    (
        "nodes = 3\ndrives = 2\nslots = 16\nunit = 7\n",
        FILE,
        NO_OPERATION,
        Rule::Range,
        0,
        0,
    ),
    (
        "nodes = 3\ndrives = 2\nslots = 16\nworkers = 17\n",
        FILE,
        NO_OPERATION,
        Rule::Range,
        0,
        0,
    ),
    (
        "nodes = 29\ndrives = 7\nslots = 4096\n",
        FILE,
        NO_OPERATION,
        Rule::Drives,
        0,
        0,
    ),
    (
        "nodes = 3\ndrives = 1\nslots = 2731\n",
        FILE,
        NO_OPERATION,
        Rule::Space,
        0,
        0,
    ),
    (CLUSTER, "file = []\n", NO_OPERATION, Rule::Files, 0, 0),
    (
        CLUSTER,
        "file = [{ name = \"a b\", level = \"2x\" }]\n",
        NO_OPERATION,
        Rule::Files,
        0,
        0,
    ),
    (
        CLUSTER,
        "file = [{ name = \"a\", level = \"9x\" }]\n",
        NO_OPERATION,
        Rule::Files,
        0,
        0,
    ),
    (
        CLUSTER,
        "file = [{ name = \"a\", level = \"2x\" }, { name = \"a\", level = \"3x\" }]\n",
        NO_OPERATION,
        Rule::Files,
        0,
        0,
    ),
    (CLUSTER, FILE, "actor = []\n", Rule::Actors, 0, 0),
    (
        CLUSTER,
        FILE,
        "actor = [{ ops = [\"create b\"] }, { ops = [\"drain\", \"read a 0  1\"] }]\n",
        Rule::Op,
        2,
        2,
    ),
    (
        CLUSTER,
        FILE,
        "actor = [{ ops = [\"fail 4/1\", \"create b\"] }]\n",
        Rule::Name,
        1,
        2,
    ),
    (
        CLUSTER,
        FILE,
        "actor = [{ ops = [\"pause j\", \"fail 4/1\"] }]\n",
        Rule::Drive,
        1,
        2,
    ),
    (
        CLUSTER,
        FILE,
        "actor = [{ ops = [\"drain\", \"pause j\"] }]\n",
        Rule::Job,
        1,
        2,
    ),
    (
        CLUSTER,
        FILE,
        "actor = [{ ops = [\"create a\", \"drain\"] }]\n",
        Rule::Unbuilt,
        1,
        2,
    ),
];

#[test]
fn the_first_broken_rule_is_named(rt: HostRuntime) -> Result<(), Fail> {
    let alloc = rt.alloc();
    for (numbers, files, ops, rule, actor, op) in CASES {
        let text = format!(in alloc; "{numbers}{files}{ops}")?;
        let Err(ScenarioFault::Bad(bad)) = read_named(alloc, text.as_str()) else {
            return Err("a broken rule".into());
        };
        assert_eq!(rt; bad.rule, rule, "{text}");
        assert_eq!(rt; bad.place.actor, actor, "{text}");
        assert_eq!(rt; bad.place.op, op, "{text}");
    }
    Ok(())
}
