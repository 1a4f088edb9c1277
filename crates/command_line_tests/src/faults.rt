//! What is told of words that begin with `forward` and are no command.
use crate::words::{command_in, words_in};
use command_line::{OutOfMemory, fault_of};
use std::alloc::Global;
use std::test::Fail;

// What stands before the words of the rows below.
const FORWARD: &str = "forward|--listen|192.0.2.1:53|--workers|1";
// And behind those before it: then nothing lacks.
const UPSTREAM: &str = "|--upstream|127.0.0.1:5353";

// Words, and what is told of them.
type Row = (&'static str, &'static str);

const LACKING: [Row; 7] = [
    ("forward", "--listen is missing"),
    (
        "forward|--upstream|[::1]:53|--workers|1",
        "--listen is missing",
    ),
    (
        "forward|--listen|[::1]:53|--workers|1",
        "--upstream is missing",
    ),
    ("forward|--listen|[::1]:53", "--upstream is missing"),
    (
        "forward|--listen|[::1]:54|--upstream|[::1]:53",
        "--workers is missing",
    ),
    ("forward|--listen", "--listen has no value"),
    // Before its last word is asked for a value, the first is no option.
    ("forward|listen|--listen", "listen is no option"),
];

const WORDS: [Row; 12] = [
    ("--cache|1", "--cache is no option"),
    ("--pas|home.arpa", "--pas is no option"),
    ("--Pass|home.arpa", "--Pass is no option"),
    ("--pass home.arpa", "--pass home.arpa is no option"),
    ("-p|home.arpa", "-p is no option"),
    ("home.arpa", "home.arpa is no option"),
    ("--", "-- is no option"),
    ("", " is no option"),
    ("--help", "--help is no option"),
    ("--pass", "--pass has no value"),
    ("--status|--pass=a", "--status has no value"),
    // A word that is no option comes before each value that is wrong.
    ("--workers|9|--|a", "-- is no option"),
];

const ADDRESSES: [Row; 14] = [
    (
        "--listen|0.0.0.0:53",
        "--listen 0.0.0.0:53 stands for every address of the machine",
    ),
    (
        "--listen=[::]:53",
        "--listen [::]:53 stands for every address of the machine",
    ),
    (
        "--upstream|0.0.0.0:53",
        "--upstream 0.0.0.0:53 stands for every address of the machine",
    ),
    ("--listen|127.0.0.1:0", "--listen 127.0.0.1:0 has port 0"),
    ("--upstream|[::1]:0", "--upstream [::1]:0 has port 0"),
    (
        "--listen|127.0.0.1",
        "--listen 127.0.0.1 is no address with a port",
    ),
    ("--listen|53", "--listen 53 is no address with a port"),
    (
        "--listen|127.0.0.1:65536",
        "--listen 127.0.0.1:65536 is no address with a port",
    ),
    (
        "--listen|localhost:53",
        "--listen localhost:53 is no address with a port",
    ),
    (
        "--listen|::1:53",
        "--listen ::1:53 is no address with a port",
    ),
    ("--listen=", "--listen  is no address with a port"),
    // It stands in FORWARD, and `010.` isn't 10.
    (
        "--listen|192.0.2.1:0053",
        "--listen 192.0.2.1:0053 is listened at already",
    ),
    (
        "--listen|192.0.2.010:53",
        "--listen 192.0.2.010:53 is no address with a port",
    ),
    (
        "--upstream|192.0.2.1:53",
        "--upstream 192.0.2.1:53 is both listened at and upstream",
    ),
];

const MAPPED: [Row; 8] = [
    (
        "--listen|[::ffff:127.0.0.1]:53",
        "--listen [::ffff:127.0.0.1]:53 is an IPv4 address written as an IPv6 one",
    ),
    (
        "--upstream=[::ffff:127.0.0.1]:53",
        "--upstream [::ffff:127.0.0.1]:53 is an IPv4 address written as an IPv6 one",
    ),
    (
        "--listen|[::ffff:0.0.0.0]:53",
        "--listen [::ffff:0.0.0.0]:53 is an IPv4 address written as an IPv6 one",
    ),
    (
        "--upstream|[::ffff:0.0.0.0]:53",
        "--upstream [::ffff:0.0.0.0]:53 is an IPv4 address written as an IPv6 one",
    ),
    (
        "--upstream|[::ffff:255.255.255.255]:53",
        "--upstream [::ffff:255.255.255.255]:53 is an IPv4 address written as an IPv6 one",
    ),
    // 127.0.0.1 and 192.0.2.1 in hexadecimal digits.
    (
        "--upstream|[::FFFF:7f00:1]:53",
        "--upstream [::FFFF:7f00:1]:53 is an IPv4 address written as an IPv6 one",
    ),
    (
        "--listen|[0:0:0:0:0:ffff:c000:201]:53",
        "--listen [0:0:0:0:0:ffff:c000:201]:53 is an IPv4 address written as an IPv6 one",
    ),
    // With a scope it is one too.
    (
        "--upstream|[::ffff:192.0.2.1%3]:54",
        "--upstream [::ffff:192.0.2.1%3]:54 is an IPv4 address written as an IPv6 one",
    ),
];

// Each differs from an IPv4-mapped address in an octet at least.
const UNMAPPED: [&str; 9] = [
    // IPv4-compatible (RFC 4291, section 2.5.5.1).
    "[::127.0.0.1]",
    "[::fffe:127.0.0.1]",
    "[::ff:127.0.0.1]",
    "[::ff00:127.0.0.1]",
    "[::ffff:0:127.0.0.1]",
    "[::1:ffff:127.0.0.1]",
    "[100::ffff:127.0.0.1]",
    "[2001:db8::ffff:127.0.0.1]",
    // IPv4-embedded (RFC 6052, section 2.1).
    "[64:ff9b::127.0.0.1]",
];

// Two things are wrong with each.
const DOUBLY: [Row; 11] = [
    (
        "--listen|[::]:0",
        "--listen [::]:0 stands for every address of the machine",
    ),
    (
        "--upstream|0.0.0.0:0",
        "--upstream 0.0.0.0:0 stands for every address of the machine",
    ),
    (
        "--listen|[::ffff:192.0.2.1]:0",
        "--listen [::ffff:192.0.2.1]:0 is an IPv4 address written as an IPv6 one",
    ),
    (
        "--upstream|[::ffff:0.0.0.0]:0",
        "--upstream [::ffff:0.0.0.0]:0 is an IPv4 address written as an IPv6 one",
    ),
    // The address that it stands for is listened at in FORWARD.
    (
        "--upstream|[::ffff:192.0.2.1]:53",
        "--upstream [::ffff:192.0.2.1]:53 is an IPv4 address written as an IPv6 one",
    ),
    ("--workers|0", "--workers 0 is given twice"),
    (
        "--upstream|[::1]:53|--upstream|192.0.2.1:53",
        "--upstream 192.0.2.1:53 is given twice",
    ),
    (
        "--upstream|[::1]:53|--upstream=",
        "--upstream  is given twice",
    ),
    ("--status|a|--status=", "--status  is given twice"),
    // The first of two options that are wrong is told.
    (
        "--upstream|::1|--listen|[::]:53",
        "--upstream ::1 is no address with a port",
    ),
    (
        "--listen|[::]:53|--upstream|::1",
        "--listen [::]:53 stands for every address of the machine",
    ),
];

const VALUES: [Row; 12] = [
    ("--workers|2", "--workers 2 is given twice"),
    ("--status|a|--status|b", "--status b is given twice"),
    ("--status=", "--status  is an empty path"),
    ("--pass|.", "--pass . is no domain name below the root"),
    ("--pass=", "--pass  is no domain name below the root"),
    (
        "--pass|a..b",
        "--pass a..b is no domain name below the root",
    ),
    ("--pass|.a", "--pass .a is no domain name below the root"),
    ("--pass|a..", "--pass a.. is no domain name below the root"),
    ("--pass|*.a", "--pass *.a is no domain name below the root"),
    ("--pass|a b", "--pass a b is no domain name below the root"),
    ("--pass|ä", "--pass ä is no domain name below the root"),
    (
        "--upstream|[::1]:53|--upstream|[::1]:54",
        "--upstream [::1]:54 is given twice",
    ),
];

// The text is told of the words, and they are no command.
fn is_told(alloc: Global, words: &str, text: &str) -> Result<bool, OutOfMemory> {
    if command_in(alloc, words)?.is_some() {
        return Ok(false);
    }
    let words = words_in(alloc, words)?;
    match fault_of(alloc, &words)? {
        Some(fault) => Ok(format!(in alloc; "{fault}")?.as_str() == text),
        None => Ok(false),
    }
}

// The first row of which other than its text is told.
fn told_otherwise(
    alloc: Global,
    before: &str,
    rows: &[Row],
) -> Result<Option<&'static str>, OutOfMemory> {
    for (words, text) in rows {
        let all = format!(in alloc; "{before}{words}")?;
        if !is_told(alloc, all.as_str(), text)? {
            return Ok(Some(*words));
        }
    }
    Ok(None)
}

#[test]
fn what_lacks_is_told(rt: HostRuntime) -> Result<(), Fail> {
    let wrong = told_otherwise(rt.alloc(), "", &LACKING)?;
    assert!(rt; wrong.is_none(), "{wrong:?}");
    Ok(())
}

#[test]
fn words_that_are_no_options_are_told(rt: HostRuntime) -> Result<(), Fail> {
    let before = format!(in rt.alloc(); "{FORWARD}{UPSTREAM}|")?;
    let wrong = told_otherwise(rt.alloc(), before.as_str(), &WORDS)?;
    assert!(rt; wrong.is_none(), "{wrong:?}");
    Ok(())
}

#[test]
fn values_that_are_wrong_are_told(rt: HostRuntime) -> Result<(), Fail> {
    let before = format!(in rt.alloc(); "{FORWARD}|")?;
    let wrong = told_otherwise(rt.alloc(), before.as_str(), &ADDRESSES)?;
    assert!(rt; wrong.is_none(), "{wrong:?}");
    let wrong = told_otherwise(rt.alloc(), before.as_str(), &MAPPED)?;
    assert!(rt; wrong.is_none(), "{wrong:?}");
    let wrong = told_otherwise(rt.alloc(), before.as_str(), &VALUES)?;
    assert!(rt; wrong.is_none(), "{wrong:?}");
    Ok(())
}

#[test]
fn the_first_cause_is_told(rt: HostRuntime) -> Result<(), Fail> {
    let before = format!(in rt.alloc(); "{FORWARD}|")?;
    let wrong = told_otherwise(rt.alloc(), before.as_str(), &DOUBLY)?;
    assert!(rt; wrong.is_none(), "{wrong:?}");
    Ok(())
}

// The first of the addresses at which one may not listen, or which may not be asked.
fn refused(alloc: Global, addresses: &[&'static str]) -> Result<Option<&'static str>, OutOfMemory> {
    for address in addresses {
        let listens = format!(in alloc; "{FORWARD}{UPSTREAM}|--listen|{address}:53")?;
        let asks = format!(in alloc; "{FORWARD}|--upstream|{address}:53")?;
        let is_listened = command_in(alloc, listens.as_str())?.is_some();
        if !is_listened || command_in(alloc, asks.as_str())?.is_none() {
            return Ok(Some(*address));
        }
    }
    Ok(None)
}

#[test]
fn other_addresses_are_not_mapped(rt: HostRuntime) -> Result<(), Fail> {
    let wrong = refused(rt.alloc(), &UNMAPPED)?;
    assert!(rt; wrong.is_none(), "{wrong:?}");
    Ok(())
}

// The words with so many further options, which are all as one but for a number.
fn with_more(alloc: Global, option: &str, count: u8, end: &str) -> Result<String, OutOfMemory> {
    let mut words = format!(in alloc; "{FORWARD}{UPSTREAM}")?;
    for number in 0..count {
        words.push_str(format!(in alloc; "|{option}{number}{end}")?.as_str())?;
    }
    Ok(words)
}

#[test]
fn one_more_than_the_most_is_told(rt: HostRuntime) -> Result<(), Fail> {
    let eight = with_more(rt.alloc(), "--listen|[2001:db8::", 7, "]:53")?;
    let nine = with_more(rt.alloc(), "--listen|[2001:db8::", 8, "]:53")?;
    let sixteen = with_more(rt.alloc(), "--pass|n", 16, ".example")?;
    let seventeen = with_more(rt.alloc(), "--pass|n", 17, ".example")?;
    let told = "--listen [2001:db8::7]:53 is a ninth address";
    assert!(rt; command_in(rt.alloc(), eight.as_str())?.is_some());
    assert!(rt; is_told(rt.alloc(), nine.as_str(), told)?);
    assert!(rt; command_in(rt.alloc(), sixteen.as_str())?.is_some());
    let told = "--pass n16.example is a seventeenth name";
    assert!(rt; is_told(rt.alloc(), seventeen.as_str(), told)?);
    Ok(())
}

#[test]
fn one_more_is_told_before_its_own_fault(rt: HostRuntime) -> Result<(), Fail> {
    let mut ninth = with_more(rt.alloc(), "--listen|[2001:db8::", 7, "]:53")?;
    ninth.push_str("|--listen|[::]:53")?;
    let mut seventeenth = with_more(rt.alloc(), "--pass|n", 16, ".example")?;
    seventeenth.push_str("|--pass|.")?;
    let told = "--listen [::]:53 is a ninth address";
    assert!(rt; is_told(rt.alloc(), ninth.as_str(), told)?);
    let told = "--pass . is a seventeenth name";
    assert!(rt; is_told(rt.alloc(), seventeenth.as_str(), told)?);
    Ok(())
}

// The words with a name that has so many labels of 63 octets, and one of so many.
fn with_name(alloc: Global, labels: u8, octets: u8, end: &str) -> Result<String, OutOfMemory> {
    let mut words = format!(in alloc; "{FORWARD}{UPSTREAM}|--pass|")?;
    for _label in 0..labels {
        for _octet in 0..63 {
            words.push_str("x")?;
        }
        words.push_str(".")?;
    }
    for _octet in 0..octets {
        words.push_str("y")?;
    }
    words.push_str(end)?;
    Ok(words)
}

#[test]
fn a_label_has_63_octets_at_most_and_a_name_255(rt: HostRuntime) -> Result<(), Fail> {
    // 3 * 64 + 1 + 61 octets, and the root's: 255 (RFC 1035, section 2.3.4).
    let longest = with_name(rt.alloc(), 3, 61, ".")?;
    let longer = with_name(rt.alloc(), 3, 62, "")?;
    let label = with_name(rt.alloc(), 0, 63, "")?;
    let longer_label = with_name(rt.alloc(), 0, 64, "")?;
    assert!(rt; command_in(rt.alloc(), longest.as_str())?.is_some());
    assert!(rt; command_in(rt.alloc(), longer.as_str())?.is_none());
    assert!(rt; command_in(rt.alloc(), label.as_str())?.is_some());
    assert!(rt; command_in(rt.alloc(), longer_label.as_str())?.is_none());
    Ok(())
}

#[test]
fn other_words_have_no_fault(rt: HostRuntime) -> Result<(), Fail> {
    let alloc = rt.alloc();
    assert!(rt; fault_of(alloc, &Vec::new(alloc))?.is_none());
    assert!(rt; fault_of(alloc, &words_in(alloc, "replay|--listen")?)?.is_none());
    assert!(rt; fault_of(alloc, &words_in(alloc, "forward|--help")?)?.is_none());
    assert!(rt; fault_of(alloc, &words_in(alloc, "forwards")?)?.is_none());
    Ok(())
}
