//! Messages and refusals, in one run and over several.

use super::{BLANK, MADE, SPACE, Sheet, made};
use std::alloc::{AllocError, Global};
use std::fmt::Write;
use std::test::Fail;

#[test]
fn messages_stay_in_their_order_over_runs(rt: HostRuntime) -> Result<(), Fail> {
    let alloc = rt.alloc();
    let rows = [
        SPACE,
        ("qcreate S Q", "OK"),
        (
            "tpenqueue 1 S Q flags=TPQMSGID data=\"a\"",
            "OK msgid=1.8.2.0",
        ),
        ("tpdequeue 1 S Q", "OK data=\"a\" urcode=0"),
        ("tpdequeue 1 S Q", "TPEDIAGNOSTIC QMENOMSG"),
        ("tpenqueue 1 S Q data=\"b\"", "OK"),
        ("qcreate S R", "OK"),
        ("tpenqueue 2 S R data=\"r\"", "OK"),
        ("tpenqueue 1 S Q flags=TPNOFLAGS data=\"c\"", "OK"),
        (
            "tpenqueue 32 S Q flags=TPQMSGID data=\"d\"",
            "OK msgid=1.8.2.4",
        ),
        (
            "tpdequeue 1 S Q flags=TPQMSGID",
            "OK data=\"b\" urcode=0 msgid=1.8.2.1",
        ),
    ];
    let image = made(&rt, alloc, 64)?;
    let image = Sheet::of(alloc, MADE, &rows)?.check(&rt, alloc, &image)?;
    assert!(rt; image.len() == 196608);
    let rows = [
        (
            "lidl 0",
            "OK clusters=64 free=58 spaces=1\n  S number=8 pages=64 extents=4+2",
        ),
        (
            "tpdequeue 1 S Q flags=TPQMSGID",
            "OK data=\"c\" urcode=0 msgid=1.8.2.3",
        ),
        (
            "tpenqueue 1 S Q flags=TPQMSGID data=\"e\"",
            "OK msgid=1.8.3.0",
        ),
        ("tpdequeue 1 S Q", "OK data=\"d\" urcode=0"),
        (
            "tpenqueue 1 S R flags=TPQMSGID data=\"s\"",
            "OK msgid=1.8.3.1",
        ),
    ];
    let image = Sheet::of(alloc, "READY site=1 epoch=3 spaces=1 indoubt=0", &rows)?.check(
        &rt, alloc, &image,
    )?;
    let rows = [
        (
            "tpdequeue 1 S Q flags=TPQMSGID",
            "OK data=\"e\" urcode=0 msgid=1.8.3.0",
        ),
        ("tpdequeue 1 S Q", "TPEDIAGNOSTIC QMENOMSG"),
        (
            "tpdequeue 1 S R flags=TPQMSGID",
            "OK data=\"r\" urcode=0 msgid=1.8.2.2",
        ),
        (
            "tpdequeue 1 S R flags=TPQMSGID",
            "OK data=\"s\" urcode=0 msgid=1.8.3.1",
        ),
        ("tpdequeue 1 S R", "TPEDIAGNOSTIC QMENOMSG"),
    ];
    Sheet::of(alloc, "READY site=1 epoch=4 spaces=1 indoubt=0", &rows)?.check(&rt, alloc, &image)?;
    Ok(())
}

#[test]
fn messages_outlast_boots(rt: HostRuntime) -> Result<(), Fail> {
    let alloc = rt.alloc();
    let rows = [
        ("boot", BLANK),
        ("boot", BLANK),
        ("crdl 0 64 site=3", "OK clusters=64 free=60"),
        SPACE,
        ("qcreate S Q", "OK"),
        (
            "tpenqueue 1 S Q flags=TPQMSGID data=\"a\"",
            "OK msgid=3.8.1.0",
        ),
        (
            "tpenqueue 1 S Q flags=TPQMSGID data=\"b\"",
            "OK msgid=3.8.1.1",
        ),
        ("boot", "READY site=3 epoch=2 spaces=1 indoubt=0"),
        (
            "tpdequeue 1 S Q flags=TPQMSGID",
            "OK data=\"a\" urcode=0 msgid=3.8.1.0",
        ),
        (
            "tpenqueue 1 S Q flags=TPQMSGID data=\"c\"",
            "OK msgid=3.8.2.0",
        ),
        ("boot", "READY site=3 epoch=3 spaces=1 indoubt=0"),
        ("boot", "READY site=3 epoch=4 spaces=1 indoubt=0"),
        ("boot", "READY site=3 epoch=5 spaces=1 indoubt=0"),
        (
            "lidl 0",
            "OK clusters=64 free=58 spaces=1\n  S number=8 pages=64 extents=4+2",
        ),
        ("qcreate S Q", "TAKEN"),
        (
            "tpdequeue 1 S Q flags=TPQMSGID",
            "OK data=\"b\" urcode=0 msgid=3.8.1.1",
        ),
        (
            "tpdequeue 1 S Q flags=TPQMSGID",
            "OK data=\"c\" urcode=0 msgid=3.8.2.0",
        ),
        ("tpdequeue 1 S Q", "TPEDIAGNOSTIC QMENOMSG"),
        (
            "tpenqueue 1 S Q flags=TPQMSGID data=\"d\"",
            "OK msgid=3.8.5.0",
        ),
    ];
    let image = Sheet::of(alloc, BLANK, &rows)?.check(&rt, alloc, b"")?;
    let rows = [(
        "tpdequeue 1 S Q flags=TPQMSGID",
        "OK data=\"d\" urcode=0 msgid=3.8.5.0",
    )];
    Sheet::of(alloc, "READY site=3 epoch=6 spaces=1 indoubt=0", &rows)?.check(&rt, alloc, &image)?;
    Ok(())
}

// A body of that many letters, in quotes.
fn letters(alloc: Global, count: u32) -> Result<String, AllocError> {
    let mut body = String::from_str(alloc, "\"")?;
    for at in 0..count {
        body.push_str(if at % 10 == 9 { "z" } else { "y" })?;
    }
    body.push_str("\"")?;
    Ok(body)
}

#[test]
fn a_log_is_filled_to_its_last_byte(rt: HostRuntime) -> Result<(), Fail> {
    let alloc = rt.alloc();
    let mut sheet = Sheet::of(
        alloc,
        MADE,
        &[
            (
                "qspacecreate S dev=0 pages=200 queues=4 trans=4 msgs=16 error=- memory=0",
                "OK number=8 overhead=45 pages=200",
            ),
            ("qcreate S Q", "OK"),
        ],
    )?;
    let body = letters(alloc, 65000)?;
    let enqueue = format!(in alloc; "tpenqueue 1 S Q data={body}")?;
    let answer = format!(in alloc; "OK data={body} urcode=0")?;
    for _time in 0..3u8 {
        sheet.add(&enqueue, "OK")?;
        sheet.add("tpdequeue 1 S Q", &answer)?;
    }
    // a refused message takes no number
    sheet.add(&enqueue, "LOGFULL need=65017 free=7652")?;
    let body = letters(alloc, 7635)?;
    let longer = letters(alloc, 7636)?;
    sheet.add(
        &format!(in alloc; "tpenqueue 1 S Q data={longer}")?,
        "LOGFULL need=7653 free=7652",
    )?;
    sheet.add(
        &format!(in alloc; "tpenqueue 1 S Q flags=TPQMSGID data={body}")?,
        "OK msgid=1.8.2.3",
    )?;
    let full = [
        ("tpdequeue 1 S Q", "LOGFULL need=15 free=1"),
        ("tpdequeue 1 S R", "TPEDIAGNOSTIC QMEBADQUEUE"),
        ("qcreate S R", "LOGFULL need=11 free=1"),
        ("qcreate S Q", "TAKEN"),
        ("tpenqueue 1 S Q data=\"\"", "LOGFULL need=17 free=1"),
    ];
    for (line, answer) in full {
        sheet.add(line, answer)?;
    }
    let image = sheet.check(&rt, alloc, &made(&rt, alloc, 64)?)?;
    let ready = "READY site=1 epoch=3 spaces=1 indoubt=0";
    Sheet::of(alloc, ready, &full)?.check(&rt, alloc, &image)?;
    Ok(())
}

// Every byte, in quotes: as two digits, and as it is printed.
fn every_byte(alloc: Global) -> Result<(String, String), AllocError> {
    let mut spelt = String::from_str(alloc, "\"")?;
    let mut printed = String::from_str(alloc, "\"")?;
    for byte in 0..=255u8 {
        write!(spelt, "\\{byte:02X}")?;
        match byte {
            b'"' => printed.push_str("\\\"")?,
            b'\\' => printed.push_str("\\\\")?,
            b' '..=b'~' => printed.push(char::from(byte))?,
            _ => write!(printed, "\\{byte:02x}")?,
        }
    }
    spelt.push_str("\"")?;
    printed.push_str("\"")?;
    Ok((spelt, printed))
}

#[test]
fn bodies_are_given_back(rt: HostRuntime) -> Result<(), Fail> {
    let alloc = rt.alloc();
    let mut sheet = Sheet::of(alloc, MADE, &[SPACE, ("qcreate S Q", "OK")])?;
    let (spelt, printed) = every_byte(alloc)?;
    let rows: [(&str, &str); 9] = [
        ("\"\"", "\"\""),
        ("\"a b  c\"", "\"a b  c\""),
        ("\"#|=,\"", "\"#|=,\""),
        ("\"\\\"\\\\\"", "\"\\\"\\\\\""),
        ("\"\\22\\5c\\41\\20\\7e\\7F\"", "\"\\\"\\\\A ~\\7f\""),
        (
            "\"\\00\\0a\\0A\\1f\\80\\ff\\fF\"",
            "\"\\00\\0a\\0a\\1f\\80\\ff\\ff\"",
        ),
        ("\"\\\\41\"", "\"\\\\41\""),
        (&spelt, &printed),
        (&printed, &printed),
    ];
    for (body, _text) in &rows {
        sheet.add(&format!(in alloc; "tpenqueue 1 S Q data={body}")?, "OK")?;
    }
    for (_body, text) in &rows {
        sheet.add(
            "tpdequeue 1 S Q",
            &format!(in alloc; "OK data={text} urcode=0")?,
        )?;
    }
    sheet.check(&rt, alloc, &made(&rt, alloc, 64)?)?;
    Ok(())
}

#[test]
fn refusals_of_devices_come_in_their_order(rt: HostRuntime) -> Result<(), Fail> {
    let alloc = rt.alloc();
    let rows = [
        ("lidl 0", "NOTCREATED"),
        ("crdl 0 4", "RANGE field=clusters"),
        ("crdl 0 64 site=0", "RANGE field=site"),
        ("crdl 0 4 site=0", "RANGE field=clusters"),
        ("crdl 1 4", "NODEVICE"),
        (
            "qspacecreate S dev=1 pages=0 queues=4 trans=4 msgs=16 error=- memory=0",
            "NODEVICE",
        ),
        (
            "qspacecreate S dev=0 pages=0 queues=4 trans=4 msgs=16 error=- memory=0",
            "NOTCREATED",
        ),
        ("qcreate S Q", "TPENOENT"),
        ("tpenqueue 1 S Q data=\"a\"", "TPENOENT"),
        ("tpdequeue 1 S Q", "TPENOENT"),
        ("crdl 0 8192", "OK clusters=8192 free=8188"),
        ("crdl 0 4", "EXISTS"),
        ("qcreate S Q", "TPENOENT"),
        ("tpenqueue 1 S Q data=\"a\"", "TPENOENT"),
        ("tpdequeue 1 S Q", "TPENOENT"),
    ];
    Sheet::of(alloc, BLANK, &rows)?.check(&rt, alloc, b"")?;
    Ok(())
}

#[test]
fn refusals_of_spaces_and_queues_come_in_their_order(rt: HostRuntime) -> Result<(), Fail> {
    let alloc = rt.alloc();
    let rows: [([u32; 6], &str); 21] = [
        // dev, pages, queues, trans, msgs and memory
        ([1, 0, 0, 0, 0, 0], "NODEVICE"),
        ([0, 0, 0, 0, 0, 16777217], "RANGE field=pages"),
        ([0, 262017, 257, 0, 0, 0], "RANGE field=pages"),
        ([0, 64, 0, 0, 0, 0], "RANGE field=queues"),
        ([0, 64, 257, 65, 0, 0], "RANGE field=queues"),
        ([0, 64, 4, 0, 0, 0], "RANGE field=trans"),
        ([0, 64, 4, 65, 8193, 0], "RANGE field=trans"),
        ([0, 64, 4, 4, 0, 16777217], "RANGE field=msgs"),
        ([0, 64, 4, 4, 8193, 16777217], "RANGE field=msgs"),
        ([0, 45, 4, 4, 16, 16777217], "RANGE field=memory"),
        ([0, 1, 4, 4, 16, 16777216], "SMALL overhead=45 pages=1"),
        ([0, 45, 4, 4, 16, 0], "SMALL overhead=45 pages=45"),
        (
            [0, 2487, 256, 64, 8192, 0],
            "SMALL overhead=2487 pages=2487",
        ),
        ([0, 65, 4, 4, 16, 0], "LACK need=3 free=2"),
        ([0, 262016, 4, 4, 16, 0], "LACK need=8188 free=2"),
        (
            [0, 64, 2, 4, 16, 16777216],
            "OK number=8 overhead=43 pages=64",
        ),
        // where one stands
        ([1, 64, 4, 4, 16, 0], "NODEVICE"),
        ([0, 0, 4, 4, 16, 0], "RANGE field=pages"),
        ([0, 45, 4, 4, 16, 0], "SMALL overhead=45 pages=45"),
        ([0, 65, 4, 4, 16, 0], "LACK need=3 free=0"),
        ([0, 46, 4, 4, 16, 0], "LACK need=2 free=0"),
    ];
    let mut sheet = Sheet::new(alloc, MADE)?;
    for (at, (fields, answer)) in rows.iter().enumerate() {
        let [dev, pages, queues, trans, msgs, memory] = *fields;
        let name = if at < 16 { "S" } else { "T" };
        sheet.add(
            &format!(in alloc;
                "qspacecreate {name} dev={dev} pages={pages} queues={queues} trans={trans} msgs={msgs} error=- memory={memory}"
            )?,
            answer,
        )?;
    }
    let rows = [
        (
            "qspacecreate S dev=0 pages=0 queues=4 trans=4 msgs=16 error=- memory=0",
            "TAKEN",
        ),
        (
            "qspacecreate S dev=1 pages=0 queues=4 trans=4 msgs=16 error=- memory=0",
            "NODEVICE",
        ),
        (
            "lidl 0",
            "OK clusters=6 free=0 spaces=1\n  S number=8 pages=64 extents=4+2",
        ),
        ("qcreate T Q", "TPENOENT"),
        ("qcreate S Q", "OK"),
        ("qcreate S Q", "TAKEN"),
        ("qcreate S 123456789012345", "OK"),
        ("qcreate S Q", "TAKEN"),
        ("qcreate S R", "QUEUEFULL limit=2"),
        ("tpenqueue 1 S R data=\"a\"", "TPEDIAGNOSTIC QMEBADQUEUE"),
        ("tpenqueue 1 T Q data=\"a\"", "TPENOENT"),
        ("tpdequeue 1 S R", "TPEDIAGNOSTIC QMEBADQUEUE"),
        ("tpdequeue 1 T Q", "TPENOENT"),
        ("tpdequeue 1 S 123456789012345", "TPEDIAGNOSTIC QMENOMSG"),
    ];
    for (line, answer) in rows {
        sheet.add(line, answer)?;
    }
    sheet.check(&rt, alloc, &made(&rt, alloc, 6)?)?;
    Ok(())
}

#[test]
fn rooms_have_their_limits(rt: HostRuntime) -> Result<(), Fail> {
    let alloc = rt.alloc();
    let image = made(&rt, alloc, 64)?;
    let rows = [
        (
            "qspacecreate U dev=0 pages=64 queues=4 trans=1 msgs=2 error=- memory=4",
            "OK number=8 overhead=41 pages=64",
        ),
        ("qcreate U Q", "OK"),
        ("qcreate U R", "OK"),
        ("tpenqueue 1 U Q data=\"a\"", "OK"),
        (
            "tpenqueue 1 U R flags=TPQMSGID data=\"b\"",
            "OK msgid=1.8.2.1",
        ),
        (
            "tpenqueue 1 U Q data=\"c\"",
            "TPEDIAGNOSTIC QMENOSPACE resource=messages need=1 held=2 limit=2",
        ),
        ("tpenqueue 1 U P data=\"c\"", "TPEDIAGNOSTIC QMEBADQUEUE"),
        ("tpdequeue 1 U R", "OK data=\"b\" urcode=0"),
        (
            "tpenqueue 1 U Q flags=TPQMSGID data=\"c\"",
            "OK msgid=1.8.2.2",
        ),
    ];
    Sheet::of(alloc, MADE, &rows)?.check(&rt, alloc, &image)?;
    let mut sheet = Sheet::of(
        alloc,
        MADE,
        &[
            (
                "qspacecreate V dev=0 pages=46 queues=4 trans=4 msgs=16 error=- memory=0",
                "OK number=8 overhead=45 pages=46",
            ),
            ("qcreate V Q", "OK"),
        ],
    )?;
    let page = letters(alloc, 760)?;
    let rows = [
        (
            761,
            "TPEDIAGNOSTIC QMENOSPACE resource=pages need=2 held=0 limit=1",
        ),
        (
            65536,
            "TPEDIAGNOSTIC QMENOSPACE resource=pages need=65 held=0 limit=1",
        ),
        (65537, "TPEINVAL size=65537"),
        (760, "OK"),
        (
            0,
            "TPEDIAGNOSTIC QMENOSPACE resource=pages need=1 held=1 limit=1",
        ),
    ];
    for (size, answer) in rows {
        let body = letters(alloc, size)?;
        sheet.add(&format!(in alloc; "tpenqueue 1 V Q data={body}")?, answer)?;
    }
    sheet.add(
        "tpdequeue 1 V Q",
        &format!(in alloc; "OK data={page} urcode=0")?,
    )?;
    sheet.add(
        "tpenqueue 1 V Q flags=TPQMSGID data=\"a\"",
        "OK msgid=1.8.2.1",
    )?;
    // the size comes before the space
    let long = letters(alloc, 65537)?;
    sheet.add(
        &format!(in alloc; "tpenqueue 1 W Q data={long}")?,
        "TPEINVAL size=65537",
    )?;
    sheet.check(&rt, alloc, &image)?;
    Ok(())
}
