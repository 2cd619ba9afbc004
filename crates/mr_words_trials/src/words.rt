//! Words in form and words in none, as a table.

use mr_base::Memory;
use mr_words::{Options, folders, is_form, options_of};
use std::alloc::Global;
use std::test::Fail;

/// The words, parted by spaces, and the folder's place with the moment and the log's limit, where they are
/// in form.
const ROWS: &str = "\
run shop|1 - -
run run|1 - -
run a-b|1 - -
run shop --now=0|1 0 -
run --now=18446744073709551615 shop|2 18446744073709551615 -
run --now 00000000000000000007 shop|3 7 -
run shop --log-limit=4096 --now 5|1 5 4096
run --log-limit 1099511627776 shop --now=5|3 5 1099511627776
run -- shop|2 - -
run -- --now=5|2 - -
run --now=5 -- -x|3 5 -
run -- --|2 - -
run shop --|1 - -
run|
run |
run -|
run -x|
run --|
run -- |
run shop more|
run shop -- more|
run -- shop --now=5|
run -- --now=5 shop|
RUN shop|
shop run|
|
run shop --now|
run shop --now=|
run shop --now |
run shop --now -- 5|
run shop --now=+5|
run shop --now=-5|
run shop --now=000000000000000000007|
run shop --now=18446744073709551616|
run shop --now=5 --now=5|
run shop --now 5 --now=5|
run shop --log-limit=4095|
run shop --log-limit=1099511627777|
run shop --log-limit=5000 --log-limit 5000|
run shop --nowhere=5|
run shop -now=5|
run shop --memtable=65536|
run shop --help|
exercise shop --rows=1 --seed=1|";

fn words_of(alloc: Global, line: &str) -> Result<Vec<String>, Memory> {
    let mut words = Vec::new(alloc);
    for word in line.split(' ') {
        match words.push(String::from_str(alloc, word)?) {
            Ok(()) => {}
            Err(_) => return Err(Memory),
        }
    }
    Ok(words)
}

fn number(text: Option<&str>) -> Option<u64> {
    text.and_then(|text| text.parse().ok())
}

/// Whether they say just this.
fn are_read(alloc: Global, line: &str, wanted: &str) -> Result<bool, Memory> {
    let words = words_of(alloc, line)?;
    let told = options_of(&words);
    let mut parts = wanted.split(' ');
    let Some(folder) = number(parts.next()) else {
        return Ok(told.is_none() && !is_form(&words));
    };
    Ok(
        told == Some(Options {
            folder: folder as usize,
            now: number(parts.next()),
            log_limit: number(parts.next()),
        }),
    )
}

/// Whether the folder is found there.
fn is_found(alloc: Global, line: &str, wanted: &str) -> Result<bool, Memory> {
    let words = words_of(alloc, line)?;
    let found = folders(alloc, &words)?;
    let folder = number(wanted.split(' ').next());
    Ok(found.first.map(|place| place as u64) == folder && found.second.is_none())
}

#[test]
fn words_are_read(rt: HostRuntime) -> Result<(), Fail> {
    for row in ROWS.split('\n') {
        if let Some((line, wanted)) = row.split_once('|') {
            assert_eq!(rt; are_read(rt.alloc(), line, wanted), Ok(true), "{line}");
            assert_eq!(rt; is_found(rt.alloc(), line, wanted), Ok(true), "{line}");
        }
    }
    Ok(())
}
