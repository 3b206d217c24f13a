//! Starts of one's own: written and loaded, flawed, and of another form.

use super::questions::loaded_report;
use super::{AnyBook, are_bad, fault_is, text_is};
use rd_journal::Session;
use rd_marks::Book;
use rd_step::{Flaw, World};
use rd_trace::{TraceFault, load_trace};
use std::alloc::{AllocError, Global};
use std::process::Abort;

/// The start of one actor at the fetch-and-add of its enqueue, over a ring of two cells.
const POISED: &str =
    "{\"actors\":[{\"closed\":false,\"crq\":[0,0],\"h\":0,\"idx\":0,\"new\":[0,0],\"next\":[0,0],\"op\":[\"enq\",1],\"pass\":0,\"pc\":\"E4\",\"safe\":false,\"t\":0,\"val\":null}],\"array\":{\"cells\":[],\"head\":0,\"tail\":0},\"qhead\":[0,0],\"qtail\":[0,0],\"segments\":[[{\"cells\":[[true,0,null],[true,1,null]],\"closed\":false,\"head\":0,\"next\":null,\"tail\":0}],[]]}";

/// A trace of a start over rings of two cells.
fn trace_of(rt: &impl Abort, alloc: Global, start: &str) -> String {
    let text = format!(in alloc;
        "{{\"events\":[],\"marks\":[],\"ring\":2,\"start\":{start},\"undone\":[],\"version\":2}}\n"
    );
    text.expect(rt, "out of memory")
}

/// A trace of a start in which a part of the text stands for another.
fn trace_with(rt: &impl Abort, alloc: Global, start: &str, old: &str, new: &str) -> String {
    let start = start.replacen(alloc, old, new, 1);
    trace_of(rt, alloc, &start.expect(rt, "out of memory"))
}

/// What is written of the book that a text is loaded as is this other text.
fn is_written_as(rt: &impl Abort, alloc: Global, text: &[u8], wanted: &str) {
    match load_trace(alloc, text) {
        Ok(AnyBook::Two(book)) => text_is(rt, alloc, &book, wanted),
        _ => panic!(rt; "no trace of the ring"),
    }
}

/// A trace of a start is loaded, and written as it was.
fn comes_back(rt: &impl Abort, alloc: Global, start: &str) {
    let text = trace_of(rt, alloc, start);
    is_written_as(rt, alloc, text.as_bytes(), &text);
}

/// With the new part for the old one in each row, a start comes back.
fn come_back(rt: &impl Abort, alloc: Global, start: &str, rows: &[(&str, &str)]) {
    for (old, new) in rows {
        let text = trace_with(rt, alloc, start, *old, *new);
        is_written_as(rt, alloc, text.as_bytes(), &text);
    }
}

#[test]
fn a_poised_world_is_written_as_its_parts(rt: HostRuntime) {
    let world = World::<2>::poised(rt.alloc(), 1).expect(&rt, "out of memory");
    let book = Book::open(rt.alloc(), Session::open(rt.alloc(), world));
    text_is(&rt, rt.alloc(), &book, &trace_of(&rt, rt.alloc(), POISED));
}

/// The actor of the start above, what is there after it, and a list of no segment.
const ACTOR: &str =
    "{\"closed\":false,\"crq\":[0,0],\"h\":0,\"idx\":0,\"new\":[0,0],\"next\":[0,0],\"op\":[\"enq\",1],\"pass\":0,\"pc\":\"E4\",\"safe\":false,\"t\":0,\"val\":null}";

const BEHIND: &str =
    "],\"array\":{\"cells\":[],\"head\":0,\"tail\":0},\"qhead\":[0,0],\"qtail\":[0,0],\"segments\":[[{\"cells\":[[true,0,null],[true,1,null]],\"closed\":false,\"head\":0,\"next\":null,\"tail\":0}]";

const NO_SEGMENT: &str = ",[]";

/// A start of 16 actors and 17 lists of segments.
fn large_start(alloc: Global) -> Result<String, AllocError> {
    let others = format!(in alloc; ",{ACTOR}")?.repeat(alloc, 15)?;
    let lists = NO_SEGMENT.repeat(alloc, 16)?;
    format!(in alloc; "{{\"actors\":[{ACTOR}{others}{BEHIND}{lists}]}}")
}

/// The parts of the fresh world of one actor over rings of two cells, and how a trace spells that
/// start.
const FRESH_PARTS: &str =
    "{\"actors\":[{\"closed\":false,\"crq\":[0,0],\"h\":0,\"idx\":0,\"new\":[0,0],\"next\":[0,0],\"op\":null,\"pass\":0,\"pc\":\"Idle\",\"safe\":false,\"t\":0,\"val\":null}],\"array\":{\"cells\":[],\"head\":0,\"tail\":0},\"qhead\":[0,0],\"qtail\":[0,0],\"segments\":[[{\"cells\":[[true,0,null],[true,1,null]],\"closed\":false,\"head\":0,\"next\":null,\"tail\":0}],[]]}";

const FRESH: &str = "{\"fresh\":1}";

#[test]
fn starts_come_back_and_parts_of_a_fresh_world_are_written_as_fresh(rt: HostRuntime) {
    let large = large_start(rt.alloc()).expect(&rt, "out of memory");
    comes_back(&rt, rt.alloc(), &large);
    comes_back(&rt, rt.alloc(), POISED);
    comes_back(&rt, rt.alloc(), FULL);
    let text = trace_of(&rt, rt.alloc(), FRESH_PARTS);
    is_written_as(
        &rt,
        rt.alloc(),
        text.as_bytes(),
        &trace_of(&rt, rt.alloc(), FRESH),
    );
}

/// Parts of a text of the fresh world's parts, and what stands for each in the parts of a world
/// that is another.
const NEARLY_FRESH: &[(&str, &str)] = &[
    ("\"cells\":[],", "\"cells\":[[63,\"top\"]],"),
    ("\"head\":0,\"tail\":0", "\"head\":1,\"tail\":0"),
    ("\"head\":0,\"tail\":0", "\"head\":0,\"tail\":1"),
    ("[true,0,null]", "[false,0,null]"),
    ("[true,1,null]", "[true,3,null]"),
    ("[true,1,null]", "[true,1,0]"),
    ("\"closed\":false,\"head\"", "\"closed\":true,\"head\""),
    ("\"head\":0,\"next\"", "\"head\":1,\"next\""),
    ("\"next\":null", "\"next\":[0,0]"),
    ("\"tail\":0}],[]]", "\"tail\":1}],[]]"),
    (
        ",[]]",
        ",[{\"cells\":[[true,0,null],[true,1,null]],\"closed\":false,\"head\":0,\"next\":null,\"tail\":0}]]",
    ),
    (
        "\"op\":null,\"pass\":0,\"pc\":\"Idle\"",
        "\"op\":[\"deq\"],\"pass\":0,\"pc\":\"Q1\"",
    ),
];

/// The control points at which an actor with this call and pass may be, with this head position and
/// this value.
const POINTS: &[(&[&str], &str, u64, &str)] = &[
    (
        &[
            "E1", "E2", "E3", "E4", "E5", "E6", "E7", "E8", "E9", "E10", "E11", "E12", "E13", "E14",
        ],
        "\"op\":[\"enq\",1],\"pass\":0",
        0,
        "null",
    ),
    (
        &[
            "Q1", "Q2", "Q3", "Q4", "Q7", "Q8", "Q9", "Q10", "Q11", "Q12", "Q13",
        ],
        "\"op\":[\"deq\"],\"pass\":1",
        1,
        "null",
    ),
    (&["Q5"], "\"op\":[\"deq\"],\"pass\":1", 0, "7"),
    (&["Q6"], "\"op\":[\"deq\"],\"pass\":2", 1, "7"),
    (&["Q14"], "\"op\":[\"deq\"],\"pass\":2", 1, "null"),
    (
        &["A1", "A2"],
        "\"op\":[\"aenq\",18446744073709551615],\"pass\":0",
        0,
        "null",
    ),
    (
        &["B1", "B2", "B3"],
        "\"op\":[\"adeq\"],\"pass\":0",
        63,
        "null",
    ),
];

/// A start whose actor is at this control point, with these words, is loaded, shown with it and
/// written again.
fn stands_at(rt: &impl Abort, alloc: Global, pc: &str, (call, h, val): (&str, u64, &str)) {
    let words = format!(in alloc;
        "\"h\":{h},\"idx\":0,\"new\":[0,0],\"next\":[0,0],{call},\"pc\":\"{pc}\",\"safe\":false,\"t\":0,\"val\":{val}}}"
    ).expect(rt, "out of memory");
    let text = trace_with(rt, alloc, FRESH_PARTS, IDLE_WORDS, &words);
    is_written_as(rt, alloc, text.as_bytes(), &text);
    let report = loaded_report(rt, alloc, "actor 1\n", text.as_bytes());
    let begins = format!(in alloc; "actor {pc} ").expect(rt, "out of memory");
    assert!(rt; report.starts_with(begins.as_bytes()), "{pc}");
}

/// The words of the idle actor of the fresh world, but for those before them.
const IDLE_WORDS: &str =
    "\"h\":0,\"idx\":0,\"new\":[0,0],\"next\":[0,0],\"op\":null,\"pass\":0,\"pc\":\"Idle\",\"safe\":false,\"t\":0,\"val\":null}";

/// An actor may be at each of these control points, with these words.
fn stands_at_each(rt: &impl Abort, alloc: Global, points: &[&str], words: (&str, u64, &str)) {
    for pc in points {
        stands_at(rt, alloc, *pc, words);
    }
}

#[test]
fn an_actor_stands_at_the_control_point_that_is_spelled(rt: HostRuntime) {
    for (points, call, h, val) in POINTS {
        stands_at_each(&rt, rt.alloc(), *points, (*call, *h, *val));
    }
}

/// The parts of a world of three actors and four segments, nearly each of whose words is another.
const FULL: &str =
    "{\"actors\":[{\"closed\":true,\"crq\":[1,0],\"h\":3,\"idx\":4,\"new\":[1,1],\"next\":[2,0],\"op\":[\"enq\",18446744073709551615],\"pass\":0,\"pc\":\"E4\",\"safe\":true,\"t\":5,\"val\":6},{\"closed\":false,\"crq\":[0,0],\"h\":0,\"idx\":0,\"new\":[0,0],\"next\":[0,0],\"op\":null,\"pass\":0,\"pc\":\"Idle\",\"safe\":false,\"t\":0,\"val\":null},{\"closed\":false,\"crq\":[2,0],\"h\":2,\"idx\":0,\"new\":[0,0],\"next\":[0,0],\"op\":[\"deq\"],\"pass\":2,\"pc\":\"Q3\",\"safe\":false,\"t\":1,\"val\":0}],\"array\":{\"cells\":[[0,\"top\"],[2,8],[63,0]],\"head\":7,\"tail\":9},\"qhead\":[1,1],\"qtail\":[2,0],\"segments\":[[{\"cells\":[[false,2,null],[true,1,9]],\"closed\":true,\"head\":10,\"next\":[1,0],\"tail\":11}],[{\"cells\":[[true,0,null],[true,3,12]],\"closed\":false,\"head\":13,\"next\":[2,0],\"tail\":14},{\"cells\":[[true,0,null],[false,1,null]],\"closed\":true,\"head\":15,\"next\":null,\"tail\":16}],[{\"cells\":[[true,4611686018427387906,null],[true,1,0]],\"closed\":false,\"head\":4611686018427387904,\"next\":[0,0],\"tail\":17}],[]]}";

/// Lines and their replies over that world.
const SHOWN: &[(&str, &str)] = &[
    ("show qhead", "is 1.1"),
    ("show qtail", "is 2.0"),
    ("show head 0.0", "is 10"),
    ("show tail 0.0", "is closed 11"),
    ("show next 0.0", "is 1.0"),
    ("show cell 0.0 0", "is 0 2 none"),
    ("show cell 0.0 1", "is 1 1 9"),
    ("show head 1.0", "is 13"),
    ("show tail 1.0", "is open 14"),
    ("show next 1.0", "is 2.0"),
    ("show cell 1.0 1", "is 1 3 12"),
    ("show head 1.1", "is 15"),
    ("show tail 1.1", "is closed 16"),
    ("show next 1.1", "is none"),
    ("show cell 1.1 1", "is 0 1 none"),
    ("show head 2.0", "is 4611686018427387904"),
    ("show tail 2.0", "is open 17"),
    ("show next 2.0", "is 0.0"),
    ("show cell 2.0 0", "is 1 4611686018427387906 none"),
    ("show cell 2.0 1", "is 1 1 0"),
    ("show whole 2.1", "refused 19 NoSuchPlace"),
    ("show whole 3.0", "refused 19 NoSuchPlace"),
    ("show ahead", "is 7"),
    ("show atail", "is 9"),
    ("show acell 0", "is top"),
    ("show acell 1", "is empty"),
    ("show acell 2", "is value 8"),
    ("show acell 63", "is value 0"),
    (
        "actor 1",
        "actor E4 enq 18446744073709551615 crq 1.0 new 1.1 next 2.0 t 5 h 3 closed 1 val 6 safe 1 idx 4 pass 0",
    ),
    (
        "actor 2",
        "actor Idle none crq 0.0 new 0.0 next 0.0 t 0 h 0 closed 0 val none safe 0 idx 0 pass 0",
    ),
    (
        "actor 3",
        "actor Q3 deq crq 2.0 new 0.0 next 0.0 t 1 h 2 closed 0 val 0 safe 0 idx 0 pass 2",
    ),
    ("actor 4", "refused 1 NoActor"),
    ("len", "at 0 0"),
    ("marks", "marks 0"),
    ("go 1", "ok 1"),
    ("show tail 1.0", "is open 15"),
];

#[test]
fn each_word_of_a_start_is_where_its_key_says(rt: HostRuntime) {
    let text = trace_of(&rt, rt.alloc(), FULL);
    let mut script = String::new(rt.alloc());
    let mut wanted = String::new(rt.alloc());
    for (line, reply) in SHOWN {
        push_line(&rt, &mut script, *line);
        push_line(&rt, &mut wanted, *reply);
    }
    let report = loaded_report(&rt, rt.alloc(), &script, text.as_bytes());
    assert!(&rt; report.as_slice() == wanted.as_bytes());
}

/// Appends a line to a text.
fn push_line(rt: &impl Abort, text: &mut String, line: &str) {
    text.push_str(line).expect(rt, "out of memory");
    text.push('\n').expect(rt, "out of memory");
}

/// A trace with other white space, escapes and another order of keys in each of its objects.
const ANOTHER_ORDER: &[u8] =
    b" {\"version\" : 2,\r\n\"undone\":[[\"g\\u006f\",1]],\t\"ring\":2,\"start\":{\"segments\":[[{\"tail\":0,\"next\":null,\"head\":0,\"closed\":false,\"cells\":[ [true,0,null],[true,1,null]]}],[]],\"qtail\":[0,0],\"qhead\":[0 ,0],\"array\":{\"tail\":0,\"head\":0,\"cells\":[]},\"actors\":[{\"val\":null,\"t\":0,\"safe\":false,\"pc\":\"\\u00454\",\"pass\":0,\"op\":[\"\\u0065nq\",1],\"next\":[0,0],\"new\":[0,0],\"idx\":0,\"h\":0,\"crq\":[0,0],\"closed\":false}]},\"marks\":[{\"name\":\"\\u0061\",\"\\u0065vents\":[[\"go\",1]]}],\"events\":[ [\"go\", 1]]}\n\n";

/// As it is written, but for the start, which is the one above.
const IN_ORDER: [&str; 2] = [
    "{\"events\":[[\"go\",1]],\"marks\":[{\"events\":[[\"go\",1]],\"name\":\"a\"}],\"ring\":2,\"start\":",
    ",\"undone\":[[\"go\",1]],\"version\":2}\n",
];

#[test]
fn white_space_escapes_and_the_order_of_keys_do_not_matter(rt: HostRuntime) {
    let compact = IN_ORDER
        .join(rt.alloc(), POISED)
        .expect(&rt, "out of memory");
    is_written_as(&rt, rt.alloc(), ANOTHER_ORDER, &compact);
}

/// Parts of the start above, and what stands for each.
const OTHERS: &[(&str, &str)] = &[
    (
        "\"cells\":[],\"head\":0",
        "\"cells\":[[0,\"top\"],[63,5]],\"head\":7",
    ),
    ("[true,0,null],[true,1,null]", "[false,2,null],[true,1,9]"),
    (
        "\"closed\":false,\"head\":0,\"next\":null,\"tail\":0",
        "\"closed\":true,\"head\":1,\"next\":null,\"tail\":3",
    ),
    ("\"t\":0", "\"t\":5"),
    (
        "\"op\":[\"enq\",1],\"pass\":0,\"pc\":\"E4\"",
        "\"op\":[\"deq\"],\"pass\":2,\"pc\":\"Q3\"",
    ),
    (
        "\"op\":[\"enq\",1],\"pass\":0,\"pc\":\"E4\"",
        "\"op\":[\"aenq\",8],\"pass\":0,\"pc\":\"A2\"",
    ),
    (
        "\"op\":[\"enq\",1],\"pass\":0,\"pc\":\"E4\"",
        "\"op\":[\"adeq\"],\"pass\":0,\"pc\":\"B3\"",
    ),
    (
        "\"head\":0,\"next\":null",
        "\"head\":4611686018427387904,\"next\":[0,0]",
    ),
    ("[true,0,null]", "[true,0,18446744073709551615]"),
];

#[test]
fn the_words_of_a_start_are_those_of_its_text_and_other_parts_are_written_as_parts(
    rt: HostRuntime,
) {
    come_back(&rt, rt.alloc(), POISED, OTHERS);
    come_back(&rt, rt.alloc(), FRESH_PARTS, NEARLY_FRESH);
}

/// A part of the start above, what stands for it, and the flaw that the start has then.
const FLAWS: &[(&str, &str, Flaw)] = &[
    (
        "\"head\":0,\"next\"",
        "\"head\":4611686018427387905,\"next\"",
        Flaw::Counters,
    ),
    (",[]]}", "]}", Flaw::Makers),
    ("\"qtail\":[0,0]", "\"qtail\":[1,0]", Flaw::PlaceNames),
    (
        "\"next\":null",
        "\"next\":[255,4294967295]",
        Flaw::PlaceNames,
    ),
    ("\"crq\":[0,0]", "\"crq\":[1,5]", Flaw::ActorNames),
    (
        "[true,0,null]",
        "[true,4611686018427387907,null]",
        Flaw::Indexes,
    ),
    (
        "\"cells\":[],\"head\":0,\"tail\":0",
        "\"cells\":[],\"head\":0,\"tail\":65",
        Flaw::ArrayCounters,
    ),
    ("\"t\":0", "\"t\":4611686018427387905", Flaw::ActorNumbers),
    ("\"pass\":0", "\"pass\":255", Flaw::ActorWords),
];

#[test]
fn a_flaw_is_named(rt: HostRuntime) {
    for (old, new, flaw) in FLAWS {
        let text = trace_with(&rt, rt.alloc(), POISED, *old, *new);
        let fault = TraceFault::Flawed(*flaw);
        fault_is(&rt, rt.alloc(), text.as_bytes(), fault, *new);
    }
}

/// Parts of the start above, and what makes the text no trace in the place of each.
const BAD: &[(&str, &str)] = &[
    // other words
    ("\"pc\":\"E4\"", "\"pc\":\"E15\""),
    ("\"pc\":\"E4\"", "\"pc\":\"e4\""),
    ("\"pc\":\"E4\"", "\"pc\":\"\""),
    ("\"pc\":\"E4\"", "\"pc\":4"),
    ("\"op\":[\"enq\",1]", "\"op\":[\"enq\"]"),
    ("\"op\":[\"enq\",1]", "\"op\":[\"deq\",1]"),
    ("\"op\":[\"enq\",1]", "\"op\":[\"hop\"]"),
    ("\"op\":[\"enq\",1]", "\"op\":[]"),
    ("\"op\":[\"enq\",1]", "\"op\":[\"enq\",1,2]"),
    ("\"op\":[\"enq\",1]", "\"op\":[\"enq\",-1]"),
    ("\"op\":[\"enq\",1]", "\"op\":\"enq\""),
    ("\"pass\":0", "\"pass\":256"),
    ("\"pass\":0", "\"pass\":-1"),
    ("\"closed\":false,\"crq\"", "\"closed\":0,\"crq\""),
    ("\"safe\":false", "\"safe\":null"),
    ("\"t\":0", "\"t\":18446744073709551616"),
    ("\"t\":0", "\"t\":1.0"),
    ("\"t\":0", "\"t\":0,\"u\":0"),
    ("\"t\":0,", ""),
    ("\"t\":0", "\"u\":0"),
    ("\"val\":null", "\"val\":\"none\""),
    ("\"crq\":[0,0]", "\"crq\":[0]"),
    ("\"crq\":[0,0]", "\"crq\":[256,0]"),
    ("\"crq\":[0,0]", "\"crq\":[0,4294967296]"),
    ("\"crq\":[0,0]", "\"crq\":[0,0,0]"),
    ("\"crq\":[0,0]", "\"crq\":null"),
    // other segments and arrays
    ("[true,0,null],[true,1,null]", "[true,0,null]"),
    (
        "[true,0,null],[true,1,null]",
        "[true,0,null],[true,1,null],[true,2,null]",
    ),
    ("[true,0,null]", "[true,0]"),
    ("[true,0,null]", "[1,0,null]"),
    ("[true,0,null]", "[true,0,\"7\"]"),
    ("[true,0,null]", "[true,0,null,null]"),
    ("\"next\":null", "\"next\":0"),
    ("\"next\":null", "\"nextt\":null"),
    ("\"next\":null", "\"next\":null,\"more\":1"),
    (",[]]}", ",{}]}"),
    ("\"cells\":[],", "\"cells\":[[64,7]],"),
    ("\"cells\":[],", "\"cells\":[[1,7],[1,8]],"),
    ("\"cells\":[],", "\"cells\":[[1,7],[0,8]],"),
    ("\"cells\":[],", "\"cells\":[[0,\"empty\"]],"),
    ("\"cells\":[],", "\"cells\":[[0,null]],"),
    ("\"cells\":[],", "\"cells\":[[0]],"),
    ("\"cells\":[],", "\"cells\":[[0,7,7]],"),
    ("\"cells\":[],", "\"cells\":[7],"),
    ("\"cells\":[],", ""),
    ("\"qhead\":[0,0]", "\"qhead\":0"),
    ("\"qhead\":[0,0],", ""),
    ("\"qhead\":[0,0]", "\"qhead\":[0,0],\"fresh\":4"),
];

#[test]
fn other_words_segments_and_arrays_are_no_trace(rt: HostRuntime) {
    for (old, new) in BAD {
        let text = trace_with(&rt, rt.alloc(), POISED, *old, *new);
        are_bad(&rt, rt.alloc(), &[&text]);
    }
}
