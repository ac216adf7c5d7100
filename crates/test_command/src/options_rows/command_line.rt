// Words and what they say. The words stand between bars. What is expected is the edits, each with its value, and behind
// ` > ` the files, or behind ` made ` the number of a made text, or the fault with its word.
use lint_values::Text;
use options::{Edit, UsageFault, read_words};
use std::alloc::Global;
use std::test::Fail;

fn split(alloc: Global, words: &str) -> Result<Vec<Text>, Fail> {
    let mut split = Vec::new(alloc);
    if words.is_empty() {
        return Ok(split);
    }
    for word in words.split('|') {
        split.push(Text::from_str(alloc, word)?)?;
    }
    Ok(split)
}

pub(crate) fn push_edits(out: &mut String, edits: &[Edit]) -> Result<(), Fail> {
    for edit in edits {
        if !out.is_empty() {
            out.push_str(";")?;
        }
        out.push_str(edit.name.as_str())?;
        out.push_str("=")?;
        out.push_str(edit.value.as_str())?;
    }
    Ok(())
}

fn push_files(out: &mut String, files: &[Text]) -> Result<(), Fail> {
    let mut sign = " > ";
    for file in files {
        out.push_str(sign)?;
        out.push_str(file.as_str())?;
        sign = "|";
    }
    Ok(())
}

fn fault_text(alloc: Global, fault: &UsageFault) -> Result<String, Fail> {
    match fault {
        UsageFault::UnknownOption(word) => Ok(format!(in alloc;
            "UnknownOption {}",
            word.as_str()
        )?),
        UsageFault::NeedsValue(word) => Ok(format!(in alloc; "NeedsValue {}", word.as_str())?),
        UsageFault::BadValue(word) => Ok(format!(in alloc; "BadValue {}", word.as_str())?),
        UsageFault::NoFile => Ok(String::from_str(alloc, "NoFile")?),
        _ => Ok(String::from_str(alloc, "another fault")?),
    }
}

fn said(alloc: Global, words: &str) -> Result<String, Fail> {
    match read_words(alloc, &split(alloc, words)?) {
        Ok(line) => {
            let mut out = String::new(alloc);
            push_edits(&mut out, line.edits.as_slice())?;
            push_files(&mut out, line.files.as_slice())?;
            if let Some(classes) = line.generate {
                out.push_str(format!(in alloc; " made {classes}")?.as_str())?;
            }
            Ok(out)
        }
        Err(fault) => fault_text(alloc, &fault),
    }
}

/// The first row whose words say something else. A row is words and what they say, with a `^` between them.
fn first_other(alloc: Global, rows: &'static str) -> Result<Option<&'static str>, Fail> {
    for row in rows.split('\n') {
        let (words, expected) = row.split_once('^').unwrap_or((row, "no row"));
        if said(alloc, words)?.as_str() != expected {
            return Ok(Some(row));
        }
    }
    Ok(None)
}

const FORMS: &str = "a.py^ > a.py
a.py|b/c.py|.^ > a.py|b/c.py|.
|a.py^ > |a.py
a=b.py^ > a=b.py
^NoFile
-j|2^NoFile
--^NoFile
--|a.py^ > a.py
--|-E^ > -E
--|^ > 
a.py|--|--|--jobs=99^ > a.py|--|--jobs=99
--score=no|--|-s|y^score=no > -s|y
-j|--|a.py^BadValue --
--ignore|--|a.py^ignore=-- > a.py
-^UnknownOption -
---^UnknownOption ---
--=^UnknownOption --=
--=x^UnknownOption --=x
--nope^UnknownOption --nope
--nope=3|a.py^UnknownOption --nope=3
-x^UnknownOption -x
-x9^UnknownOption -x9
-é^UnknownOption -é
--é=1^UnknownOption --é=1
-jobs^BadValue -jobs
-score|a.py^BadValue -score
-disable=all^BadValue -disable=all
--job=1^UnknownOption --job=1
--jobsx=1^UnknownOption --jobsx=1
--Jobs=1^UnknownOption --Jobs=1
--fail_under=9^UnknownOption --fail_under=9
--help^UnknownOption --help
--version^UnknownOption --version
a.py|--jobs=2^jobs=2 > a.py";

const FLAGS: &str = "-E|a.py^errors-only= > a.py
--errors-only|a.py^errors-only= > a.py
--errors-only=yes|a.py^BadValue --errors-only=yes
--errors-only=|a.py^BadValue --errors-only=
-Ea|a.py^UnknownOption -Ea
-E=y|a.py^UnknownOption -E=y
-e|E^NoFile
--exit-zero|a.py^exit-zero= > a.py
--exit-zero=no|a.py^BadValue --exit-zero=no
--exit-zero|no|a.py^exit-zero= > no|a.py
--exit-zero|-E|--exit-zero|a.py^exit-zero=;errors-only=;exit-zero= > a.py";

const YES_AND_NO: &str = "--score=y|a.py^score=y > a.py
--score=yes|a.py^score=yes > a.py
--score=true|a.py^score=true > a.py
--score=n|a.py^score=n > a.py
--score=no|a.py^score=no > a.py
--score=false|a.py^score=false > a.py
--score|yes|a.py^score=yes > a.py
-s|n|a.py^score=n > a.py
-sn|a.py^score=n > a.py
-sfalse|a.py^score=false > a.py
-s=n|a.py^BadValue -s=n
--score=Yes|a.py^BadValue --score=Yes
--score=1|a.py^BadValue --score=1
--score=|a.py^BadValue --score=
--score|a.py^BadValue a.py
--score^NeedsValue --score
-s^NeedsValue -s
--recursive=y|p^recursive=y > p
--recursive|no|p^recursive=no > p
--recursive=on|p^BadValue --recursive=on
--recursive^NeedsValue --recursive";

const NUMBERS: &str = "--jobs=0|a.py^jobs=0 > a.py
--jobs|64|a.py^jobs=64 > a.py
--jobs=65|a.py^BadValue --jobs=65
--jobs^NeedsValue --jobs
--limit-inference-results=1|a.py^limit-inference-results=1 > a.py
--limit-inference-results|1000|a.py^limit-inference-results=1000 > a.py
--limit-inference-results=1001|a.py^BadValue --limit-inference-results=1001
--limit-inference-results|0|a.py^BadValue 0
--limit-inference-results^NeedsValue --limit-inference-results
--max-line-length=0|a.py^max-line-length=0 > a.py
--max-line-length|1000000|a.py^max-line-length=1000000 > a.py
--max-line-length=1000001|a.py^BadValue --max-line-length=1000001
--max-line-length^NeedsValue --max-line-length
--max-module-lines=0|a.py^max-module-lines=0 > a.py
--max-module-lines|1000000|a.py^max-module-lines=1000000 > a.py
--max-module-lines=1000001|a.py^BadValue --max-module-lines=1000001
--max-module-lines^NeedsValue --max-module-lines
--max-args=0|a.py^max-args=0 > a.py
--max-args|1000000|a.py^max-args=1000000 > a.py
--max-args=1000001|a.py^BadValue --max-args=1000001
--max-args^NeedsValue --max-args
--max-locals=0|a.py^max-locals=0 > a.py
--max-locals|1000000|a.py^max-locals=1000000 > a.py
--max-locals=1000001|a.py^BadValue --max-locals=1000001
--max-locals^NeedsValue --max-locals
--max-returns=0|a.py^max-returns=0 > a.py
--max-returns|1000000|a.py^max-returns=1000000 > a.py
--max-returns=1000001|a.py^BadValue --max-returns=1000001
--max-returns^NeedsValue --max-returns
--max-branches=0|a.py^max-branches=0 > a.py
--max-branches|1000000|a.py^max-branches=1000000 > a.py
--max-branches=1000001|a.py^BadValue --max-branches=1000001
--max-branches^NeedsValue --max-branches
--max-statements=0|a.py^max-statements=0 > a.py
--max-statements|1000000|a.py^max-statements=1000000 > a.py
--max-statements=1000001|a.py^BadValue --max-statements=1000001
--max-statements^NeedsValue --max-statements
--max-attributes=0|a.py^max-attributes=0 > a.py
--max-attributes|1000000|a.py^max-attributes=1000000 > a.py
--max-attributes=1000001|a.py^BadValue --max-attributes=1000001
--max-attributes^NeedsValue --max-attributes
--max-public-methods=0|a.py^max-public-methods=0 > a.py
--max-public-methods|1000000|a.py^max-public-methods=1000000 > a.py
--max-public-methods=1000001|a.py^BadValue --max-public-methods=1000001
--max-public-methods^NeedsValue --max-public-methods
--min-public-methods=0|a.py^min-public-methods=0 > a.py
--min-public-methods|1000000|a.py^min-public-methods=1000000 > a.py
--min-public-methods=1000001|a.py^BadValue --min-public-methods=1000001
--min-public-methods^NeedsValue --min-public-methods
--max-parents=0|a.py^max-parents=0 > a.py
--max-parents|1000000|a.py^max-parents=1000000 > a.py
--max-parents=1000001|a.py^BadValue --max-parents=1000001
--max-parents^NeedsValue --max-parents";

const DIGITS: &str = "-j0|a.py^jobs=0 > a.py
-j|64|a.py^jobs=64 > a.py
-j64|a.py^jobs=64 > a.py
-j65|a.py^BadValue -j65
-j|65|a.py^BadValue 65
--jobs=65|a.py^BadValue --jobs=65
-j^NeedsValue -j
-j=4|a.py^BadValue -j=4
-j|-1|a.py^BadValue -1
-j-1|a.py^BadValue -j-1
--jobs=+4|a.py^BadValue --jobs=+4
--jobs=|a.py^BadValue --jobs=
--jobs||a.py^BadValue 
--jobs= 4|a.py^BadValue --jobs= 4
--jobs=4.0|a.py^BadValue --jobs=4.0
--jobs=0x4|a.py^BadValue --jobs=0x4
--jobs=４|a.py^BadValue --jobs=４
--jobs=1=2|a.py^BadValue --jobs=1=2
--jobs=010|a.py^jobs=010 > a.py
--jobs=000000004|a.py^jobs=000000004 > a.py
--jobs=0000000004|a.py^BadValue --jobs=0000000004
--max-args=999999999|a.py^BadValue --max-args=999999999
--max-args=18446744073709551617|a.py^BadValue --max-args=18446744073709551617";

const HUNDREDTHS: &str = "--fail-under=0|a.py^fail-under=0 > a.py
--fail-under=9|a.py^fail-under=9 > a.py
--fail-under=10|a.py^fail-under=10 > a.py
--fail-under=0.0|a.py^fail-under=0.0 > a.py
--fail-under=9.5|a.py^fail-under=9.5 > a.py
--fail-under=8.33|a.py^fail-under=8.33 > a.py
--fail-under=10.0|a.py^fail-under=10.0 > a.py
--fail-under=10.00|a.py^fail-under=10.00 > a.py
--fail-under=010|a.py^fail-under=010 > a.py
--fail-under=000000010.00|a.py^fail-under=000000010.00 > a.py
--fail-under=0.05|a.py^fail-under=0.05 > a.py
--fail-under|9.99|a.py^fail-under=9.99 > a.py
--fail-under=10.01|a.py^BadValue --fail-under=10.01
--fail-under=10.1|a.py^BadValue --fail-under=10.1
--fail-under=11|a.py^BadValue --fail-under=11
--fail-under=100|a.py^BadValue --fail-under=100
--fail-under=9.|a.py^BadValue --fail-under=9.
--fail-under=9.999|a.py^BadValue --fail-under=9.999
--fail-under=.5|a.py^BadValue --fail-under=.5
--fail-under=|a.py^BadValue --fail-under=
--fail-under=-1|a.py^BadValue --fail-under=-1
--fail-under=-0|a.py^BadValue --fail-under=-0
--fail-under=+9|a.py^BadValue --fail-under=+9
--fail-under=9,5|a.py^BadValue --fail-under=9,5
--fail-under=9.5.1|a.py^BadValue --fail-under=9.5.1
--fail-under=1e1|a.py^BadValue --fail-under=1e1
--fail-under=0000000010|a.py^BadValue --fail-under=0000000010
--fail-under=9 |a.py^BadValue --fail-under=9 
--fail-under=. 5|a.py^BadValue --fail-under=. 5
--fail-under|-1|a.py^BadValue -1
--fail-under^NeedsValue --fail-under";

const LISTS: &str = "--disable=C0301|a.py^disable=C0301 > a.py
--disable|line-too-long,C0303|a.py^disable=line-too-long,C0303 > a.py
-dall|a.py^disable=all > a.py
-d|E,W,R,C,F,I|a.py^disable=E,W,R,C,F,I > a.py
-eE0001|a.py^enable=E0001 > a.py
-e|no-such-message,X9999|a.py^enable=no-such-message,X9999 > a.py
--enable=|a.py^enable= > a.py
--enable= , ,|a.py^enable= , , > a.py
--disable=Bad_Name|a.py^BadValue --disable=Bad_Name
--disable=C0301,unused_import|a.py^BadValue --disable=C0301,unused_import
--disable|C0301 C0302|a.py^BadValue C0301 C0302
-dc0301x_|a.py^BadValue -dc0301x_
--enable=C301|a.py^BadValue --enable=C301
--enable=C03011|a.py^BadValue --enable=C03011
--enable=Q|a.py^BadValue --enable=Q
--enable=ALL|a.py^BadValue --enable=ALL
--enable=é|a.py^BadValue --enable=é
--disable|-E|a.py^BadValue -E
--disable|-e|a.py^disable=-e > a.py
--disable^NeedsValue --disable
-d^NeedsValue -d
--enable^NeedsValue --enable
-e^NeedsValue -e
--fail-on=E,unused-import|a.py^fail-on=E,unused-import > a.py
--fail-on|all|a.py^fail-on=all > a.py
--fail-on=|a.py^fail-on= > a.py
--fail-on=a.b|a.py^BadValue --fail-on=a.b
--fail-on^NeedsValue --fail-on
--ignore=CVS,tests|a.py^ignore=CVS,tests > a.py
--ignore| a b ,, c |a.py^ignore= a b ,, c  > a.py
--ignore=|a.py^ignore= > a.py
--ignore^NeedsValue --ignore
--ignored-classes=a.B,C|a.py^ignored-classes=a.B,C > a.py
--ignored-classes^NeedsValue --ignored-classes
--additional-builtins|_,ngettext|a.py^additional-builtins=_,ngettext > a.py
--additional-builtins^NeedsValue --additional-builtins
--rcfile=x.toml|a.py^rcfile=x.toml > a.py
--rcfile|a=b|a.py^rcfile=a=b > a.py
--rcfile=a=b|a.py^rcfile=a=b > a.py
--rcfile=|a.py^rcfile= > a.py
--rcfile|-E|a.py^rcfile=-E > a.py
--rcfile^NeedsValue --rcfile";

const FIRST_FAULTS: &str = "--nope|--jobs=65^UnknownOption --nope
--jobs=65|--nope^BadValue --jobs=65
a.py|--jobs|65|-x^BadValue 65
--jobs=2|a.py|-x|--score^UnknownOption -x
--score=maybe|--^BadValue --score=maybe
--jobs|--nope|--score^BadValue --nope
--rcfile|--nope|--score^NeedsValue --score
--exit-zero=1|--rcfile^BadValue --exit-zero=1
-E^NoFile
--rcfile=x^NoFile
--jobs=2|--jobs=3|-j4|a.py^jobs=2;jobs=3;jobs=4 > a.py
--disable=all|--enable=E0240,E0241|d.py^disable=all;enable=E0240,E0241 > d.py
--enable=W0611|--disable=W0611|u.py^enable=W0611;disable=W0611 > u.py";

const MADE_TEXTS: &str = "--generate=1^ made 1
--generate=3^ made 3
--generate=020^ made 20
--generate=20000^ made 20000
--generate=000020000^ made 20000
--generate=0^BadValue --generate=0
--generate=20001^BadValue --generate=20001
--generate=0000000003^BadValue --generate=0000000003
--generate=^BadValue --generate=
--generate=-1^BadValue --generate=-1
--generate=+3^BadValue --generate=+3
--generate= 3^BadValue --generate= 3
--generate=3.0^BadValue --generate=3.0
--generate=x^BadValue --generate=x
--generate=3=4^BadValue --generate=3=4
--generate^NeedsValue --generate
--generat=3^UnknownOption --generat=3
--generated=3^UnknownOption --generated=3
--Generate=3^UnknownOption --Generate=3
-generate=3^UnknownOption -generate=3
--generate|3^UnknownOption --generate
--generate=3|a.py^UnknownOption --generate=3
a.py|--generate=3^UnknownOption --generate=3
--generate=3|--generate=3^UnknownOption --generate=3
--generate=3|-E^UnknownOption --generate=3
-E|--generate=3^UnknownOption --generate=3
--score=maybe|--generate=3^BadValue --score=maybe
--jobs|--generate=3^BadValue --generate=3
--rcfile|--generate=3^NoFile
--generate=3|--^UnknownOption --generate=3
--|--generate=3^ > --generate=3
generate=3^ > generate=3";

#[test]
fn made_text_is_asked_for_by_the_only_word(rt: HostRuntime) -> Result<(), Fail> {
    assert_eq!(rt; first_other(rt.alloc(), MADE_TEXTS)?, None);
    Ok(())
}

#[test]
fn words_are_options_or_files(rt: HostRuntime) -> Result<(), Fail> {
    assert_eq!(rt; first_other(rt.alloc(), FORMS)?, None);
    assert_eq!(rt; first_other(rt.alloc(), FLAGS)?, None);
    Ok(())
}

#[test]
fn values_are_yes_or_no(rt: HostRuntime) -> Result<(), Fail> {
    assert_eq!(rt; first_other(rt.alloc(), YES_AND_NO)?, None);
    Ok(())
}

#[test]
fn numbers_are_within_their_range(rt: HostRuntime) -> Result<(), Fail> {
    assert_eq!(rt; first_other(rt.alloc(), NUMBERS)?, None);
    assert_eq!(rt; first_other(rt.alloc(), DIGITS)?, None);
    assert_eq!(rt; first_other(rt.alloc(), HUNDREDTHS)?, None);
    Ok(())
}

#[test]
fn lists_hold_names(rt: HostRuntime) -> Result<(), Fail> {
    assert_eq!(rt; first_other(rt.alloc(), LISTS)?, None);
    let blanks = "--disable= C0301 ,\tall\n|a.py";
    assert_eq!(rt;
        said(rt.alloc(), blanks)?.as_str(),
        "disable= C0301 ,\tall\n > a.py"
    );
    Ok(())
}

#[test]
fn first_fault_from_the_left_is_answered(rt: HostRuntime) -> Result<(), Fail> {
    assert_eq!(rt; first_other(rt.alloc(), FIRST_FAULTS)?, None);
    Ok(())
}
