use super::*;
use rc_ids::NoMemory;
use rc_ports::Word;
use std::alloc::Global;
use std::test::Fail;

#[test]
fn generated_scripts(rt: HostRuntime) -> Result<(), Fail> {
    let cases = [
        (7, 1, 8, 0, "World { dcs: 3, shards: 2, weights: None }"),
        (7, 1, 8, 1, "Split([107, 53])"),
        (7, 1, 8, 2, "Begin(TxId(1))"),
        (7, 1, 8, 3, "Read(TxId(1), [107, 52])"),
        (7, 1, 8, 4, "Settle"),
        (7, 1, 8, 5, "Write(TxId(1), [107, 54], [118, 49])"),
        (7, 1, 8, 6, "Commit(TxId(1))"),
        (1, 2, 15, 7, "Settle"),
        (1, 2, 15, 9, "Read(TxId(2), [107, 53])"),
        (1, 2, 15, 11, "Write(TxId(2), [107, 49], [118, 50])"),
        (1, 2, 15, 14, "Settle"),
    ];
    for (number, size, count, place, form) in cases {
        let script = generate(rt.alloc(), number, size)?;
        assert_eq!(rt; script.lines().len(), count);
        let line = script.lines().get(place).ok_or("a line")?;
        let shown = format!(in rt.alloc(); "{:?}", line.command)?;
        assert_eq!(rt; shown.as_str(), form);
    }
    Ok(())
}

/// The words between bars; none where the text is empty.
fn words_in(alloc: Global, text: &str) -> Result<Vec<Word>, NoMemory> {
    let mut words = Vec::new(alloc);
    if text.is_empty() {
        return Ok(words);
    }
    for word in text.split('|') {
        words.push(Word::new(alloc, word.as_bytes())?)?;
    }
    Ok(words)
}

/// The mode that is read, or the fault.
fn read(alloc: Global, text: &str) -> Result<String, Fail> {
    let words = words_in(alloc, text)?;
    let shown = match read_words(alloc, &words) {
        Ok(mode) => format!(in alloc; "{mode:?}")?,
        Err(fault) => format!(in alloc; "{fault:?}")?,
    };
    Ok(shown)
}

#[test]
fn forms_of_words(rt: HostRuntime) -> Result<(), Fail> {
    let cases = [
        ("", "Plain"),
        ("--logs|a-b", "Logs(Word { bytes: [97, 45, 98] })"),
        ("--logs=a=b", "Logs(Word { bytes: [97, 61, 98] })"),
        ("generate|7|1", "Generate { number: 7, size: 1 }"),
        (
            "generate|2147483647|1024",
            "Generate { number: 2147483647, size: 1024 }",
        ),
        ("x", "BadWords"),
        ("--logs", "BadWords"),
        ("--logs|", "BadWords"),
        ("--logs=", "BadWords"),
        ("--logs|-x", "BadWords"),
        ("--logs=-x", "BadWords"),
        ("--logs|a|--logs|b", "BadWords"),
        ("--logs|a|x", "BadWords"),
        ("--logs|a|generate|1|1", "BadWords"),
        ("--logs|--|a", "BadWords"),
        ("--help", "BadWords"),
        ("generate|1|0", "BadWords"),
        ("generate|1|1025", "BadWords"),
        ("generate|01|1", "BadWords"),
        ("generate|+1|1", "BadWords"),
        ("generate|2147483648|1", "BadWords"),
        ("generate|1", "BadWords"),
        ("generate|1|1|1", "BadWords"),
        ("generate|--|1|1", "BadWords"),
    ];
    for (words, wanted) in cases {
        let shown = read(rt.alloc(), words)?;
        assert_eq!(rt; shown.as_str(), wanted, "{words}");
    }
    Ok(())
}

#[test]
fn words_that_are_no_text(rt: HostRuntime) -> Result<(), Fail> {
    let mut words = words_in(rt.alloc(), "--logs")?;
    words.push(Word::new(rt.alloc(), &[0xff])?)?;
    assert!(rt; matches!(read_words(rt.alloc(), &words), Err(WordsFault::BadWords)));
    Ok(())
}

/// What reading the workload comes to.
fn outcome(alloc: Global, text: &str) -> &'static str {
    match read_workload(alloc, text.as_bytes()) {
        Ok(_) => "read",
        Err(WorkloadFault::NoMemory) => "no memory",
        Err(WorkloadFault::NotToml) => "not TOML",
        Err(WorkloadFault::Schema) => "no workload",
    }
}

#[test]
fn all_keys_of_a_workload(rt: HostRuntime) -> Result<(), Fail> {
    let file =
        b"dcs = 3\nshards = 2\nsplits = ['m']\nweights = [3, 1, 9]\nlose_every = 13\nrepeat_every = 1_000_000\n[[client]]\ntx = 4294967295\nops = ['read x', 'read y', 'cancel x', 'write y a b', 'write z', 'delete x', 'commit']\n[[client]]\ntx = 1\nops = ['vanish']\n[[stop]]\nnode = 'd3.s2'\ncall = 1000\npick = 3\n[[stop]]\nnode = 'd3'\ncall = 1\npick = 0\n";
    let workload = read_workload(rt.alloc(), file)?;
    assert_eq!(rt; workload.dcs, 3);
    assert_eq!(rt; workload.shards, 2);
    assert_eq!(rt; workload.lose_every, 13);
    assert_eq!(rt; workload.repeat_every, 1_000_000);
    assert_eq!(rt; workload.weights.as_slice(), [3, 1, 9].as_slice());
    let splits = format!(in rt.alloc(); "{:?}", workload.splits.as_slice())?;
    assert_eq!(rt; splits.as_str(), "[[109]]");
    let clients = format!(in rt.alloc(); "{:?}", workload.clients.as_slice())?;
    assert_eq!(rt;
        clients.as_str(),
        "[ClientPlan { tx: TxId(4294967295), operations: Operations { items: [Read([120]), Read([121]), Cancel([120]), Write([121], [97, 32, 98]), Write([122], []), Write([120], [0]), Commit] } }, ClientPlan { tx: TxId(1), operations: Operations { items: [Vanish] } }]"
    );
    let stops = format!(in rt.alloc(); "{:?}", workload.stops.as_slice())?;
    assert_eq!(rt;
        stops.as_str(),
        "[StopPlan { node: Shard(DcId(3), ShardId(2)), call: 1000, pick: 3 }, StopPlan { node: Coord(DcId(3)), call: 1, pick: 0 }]"
    );
    Ok(())
}

#[test]
fn keys_that_may_be_missing(rt: HostRuntime) -> Result<(), Fail> {
    let file = b"dcs = 3\nshards = 1\n[[client]]\ntx = 1\nops = []\n";
    let workload = read_workload(rt.alloc(), file)?;
    assert_eq!(rt; workload.weights.as_slice(), [1, 1, 1].as_slice());
    assert_eq!(rt; workload.splits.len(), 0);
    assert_eq!(rt; workload.stops.as_slice().len(), 0);
    assert_eq!(rt; workload.lose_every, 0);
    assert_eq!(rt; workload.repeat_every, 0);
    Ok(())
}

#[test]
fn refusals_of_a_workload(rt: HostRuntime) -> Result<(), Fail> {
    let cases = [
        ("dcs = 1\nshards = 1\n", "read"),
        ("dcs = \nshards = 1\n", "not TOML"),
        ("dcs = 1\ndcs = 1\nshards = 1\n", "not TOML"),
        ("shards = 1\n", "no workload"),
        ("dcs = 2\nshards = 1\n", "no workload"),
        ("dcs = 9\nshards = 1\n", "no workload"),
        ("dcs = '1'\nshards = 1\n", "no workload"),
        ("dcs = 1.0\nshards = 1\n", "no workload"),
        (
            "dcs = 1\nshards = 9\nsplits = ['a', 'b', 'c', 'd', 'e', 'f', 'g', 'h']\n",
            "no workload",
        ),
        ("dcs = 1\nshards = 1\nsplits = []\n", "read"),
        ("dcs = 1\nshards = 2\n", "no workload"),
        ("dcs = 1\nshards = 3\nsplits = ['b', 'b']\n", "no workload"),
        ("dcs = 1\nshards = 2\nsplits = ['a.b']\n", "no workload"),
        ("dcs = 1\nshards = 2\nsplits = 'm'\n", "no workload"),
        ("dcs = 1\nshards = 1\nweights = [10]\n", "no workload"),
        ("dcs = 1\nshards = 1\nweights = [1, 1]\n", "no workload"),
        ("dcs = 1\nshards = 1\nlose_every = 1000001\n", "no workload"),
        ("dcs = 1\nshards = 1\nrepeat_every = -1\n", "no workload"),
        ("dcs = 1\nshards = 1\nclients = 1\n", "no workload"),
    ];
    for (front, wanted) in cases {
        let text = format!(in rt.alloc(); "{front}[[client]]\ntx = 1\nops = ['commit']\n")?;
        assert_eq!(rt; outcome(rt.alloc(), text.as_str()), wanted, "{front}");
    }
    Ok(())
}

#[test]
fn refusals_of_clients_and_stops(rt: HostRuntime) -> Result<(), Fail> {
    let cases = [
        ("", "no workload"),
        ("[[client]]\ntx = 0\nops = []\n", "no workload"),
        ("[[client]]\ntx = 4294967296\nops = []\n", "no workload"),
        ("[[client]]\nops = []\n", "no workload"),
        ("[[client]]\ntx = 1\n", "no workload"),
        ("[[client]]\ntx = 1\nops = []\nname = 1\n", "no workload"),
        (
            "[[client]]\ntx = 1\nops = []\n[[client]]\ntx = 1\nops = []\n",
            "no workload",
        ),
        ("[client]\ntx = 1\nops = []\n", "no workload"),
        ("[[client]]\ntx = 1\nops = [1]\n", "no workload"),
        ("[[client]]\ntx = 1\nops = ['retry']\n", "no workload"),
        ("[[client]]\ntx = 1\nops = ['commit ']\n", "no workload"),
        ("[[client]]\ntx = 1\nops = ['read']\n", "no workload"),
        (
            "[[client]]\ntx = 1\nops = [\"write x \\t\"]\n",
            "no workload",
        ),
        (
            "[[client]]\ntx = 1\nops = ['commit', 'read x']\n",
            "no workload",
        ),
        (
            "[[client]]\ntx = 1\nops = ['vanish', 'commit']\n",
            "no workload",
        ),
        ("[[client]]\ntx = 1\nops = ['cancel x']\n", "no workload"),
        (
            "[[client]]\ntx = 1\nops = ['read x', 'cancel y']\n",
            "no workload",
        ),
        (
            "[[client]]\ntx = 1\nops = ['read x', 'write y', 'cancel x']\n",
            "no workload",
        ),
        (
            "[[client]]\ntx = 1\nops = ['read x', 'cancel x', 'cancel x']\n",
            "read",
        ),
        (
            "[[client]]\ntx = 1\nops = []\n[[stop]]\nnode = 'd4'\ncall = 1\npick = 0\n",
            "no workload",
        ),
        (
            "[[client]]\ntx = 1\nops = []\n[[stop]]\nnode = 'd1'\ncall = 0\npick = 0\n",
            "no workload",
        ),
        (
            "[[client]]\ntx = 1\nops = []\n[[stop]]\nnode = 'd1'\ncall = 1001\npick = 0\n",
            "no workload",
        ),
        (
            "[[client]]\ntx = 1\nops = []\n[[stop]]\nnode = 'd1'\ncall = 1\npick = 4\n",
            "no workload",
        ),
        (
            "[[client]]\ntx = 1\nops = []\n[[stop]]\nnode = 'd1'\ncall = 1\n",
            "no workload",
        ),
        (
            "[[client]]\ntx = 1\nops = []\n[[stop]]\nnode = 'd1'\ncall = 1\npick = 0\n[[stop]]\nnode = 'd1'\ncall = 2\npick = 0\n",
            "no workload",
        ),
    ];
    for (back, wanted) in cases {
        let text = format!(in rt.alloc(); "dcs = 3\nshards = 1\n{back}")?;
        assert_eq!(rt; outcome(rt.alloc(), text.as_str()), wanted, "{back}");
    }
    Ok(())
}

/// A workload with so many clients, the first of which reads so many keys.
fn many(alloc: Global, clients: u32, keys: u32) -> Result<String, Fail> {
    let mut text = String::from_str(alloc, "dcs = 1\nshards = 1\n[[client]]\ntx = 1\nops = [")?;
    for key in 0..keys {
        text.push_str(format!(in alloc; "'read k{key}', ")?.as_str())?;
    }
    text.push_str("]\n")?;
    for client in 1..clients {
        let tx = client.saturating_add(1);
        text.push_str(format!(in alloc; "[[client]]\ntx = {tx}\nops = []\n")?.as_str())?;
    }
    Ok(text)
}

#[test]
fn limits_of_a_workload(rt: HostRuntime) -> Result<(), Fail> {
    let cases = [
        (32, 32, "read"),
        (33, 1, "no workload"),
        (1, 33, "no workload"),
    ];
    for (clients, keys, wanted) in cases {
        let text = many(rt.alloc(), clients, keys)?;
        assert_eq!(rt;
            outcome(rt.alloc(), text.as_str()),
            wanted,
            "{clients} and {keys}"
        );
    }
    assert!(rt;
        matches!(
            read_workload(rt.alloc(), &[0xff]),
            Err(WorkloadFault::NotToml)
        )
    );
    Ok(())
}
