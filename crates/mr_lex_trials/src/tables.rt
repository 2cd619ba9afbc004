//! What the lexer and the splitter say of a table of texts.

use mr_lex::{BadToken, Lexer, Split, Splitter, TokenKind, pieces_cut_alike};

/// The first letter of a kind in the rows: capital at a token's first byte, small at the others.
fn letter(kind: TokenKind) -> (u8, u8) {
    match kind {
        TokenKind::Word => (b'W', b'w'),
        TokenKind::QuotedName => (b'Q', b'q'),
        TokenKind::Number => (b'N', b'n'),
        TokenKind::Text => (b'T', b't'),
        TokenKind::Bytes => (b'B', b'b'),
        TokenKind::Sign => (b'S', b's'),
    }
}

/// Whether the places `at` to before `end` have these marks: the first the one, the others the other.
fn marked(marks: &[u8], at: usize, end: usize, first: u8, other: u8) -> bool {
    for (i, mark) in marks.iter().enumerate() {
        if at <= i && i < end {
            let want = if i == at { first } else { other };
            if *mark != want {
                return false;
            }
        }
    }
    end <= marks.len()
}

/// Whether the text's tokens are those that the marks show: `.` is white space and comments, `!` the bad place and
/// all behind it.
fn is_row(text: &[u8], marks: &[u8]) -> bool {
    let mut lexer = Lexer::new(text);
    let mut at = 0;
    for _ in 0..=text.len() {
        match lexer.next_token() {
            Err(BadToken(bad)) => {
                return marked(marks, at, bad, b'.', b'.')
                    && marked(marks, bad, text.len(), b'!', b'!')
                    && text.len() == marks.len();
            }
            Ok(None) => return marked(marks, at, text.len(), b'.', b'.')
                && text.len() == marks.len(),
            Ok(Some(token)) => {
                let (first, other) = letter(token.kind);
                if !marked(marks, at, token.start, b'.', b'.')
                    || !marked(marks, token.start, token.end, first, other)
                {
                    return false;
                }
                if token.slice.len() != token.end.saturating_sub(token.start) {
                    return false;
                }
                at = token.end;
            }
        }
    }
    false
}

/// A row of a table: a text, 0xfd and its marks.
fn halves(row: &[u8]) -> (&[u8], &[u8]) {
    for (i, byte) in row.iter().enumerate() {
        if *byte == 0xfd {
            return (&row[..i], &row[i + 1..]);
        }
    }
    (row, row)
}

/// Texts of statements and their marks, 103 rows, each behind a 0xfe.
const TEXTS: &[u8] = b"\
\xfe\xfd\
\xfe \t\n\r\x0b\x0c\xfd......\
\xfeSELECT * FROM `t`;\xfdWwwwww.S.Wwww.Qqq!\
\xfea_$9 $x _ A1\xfdWwww.Ww.W.Ww\
\xfe1 007 12,3\xfdN.Nnn.NnSN\
\xfe1a\xfd!!\
\xfe1_\xfd!!\
\xfe1$\xfd!!\
\xfe9 a\xfdN.W\
\xfe1.5\xfdNSN\
\xfe1e5\xfd!!!\
\xfe170141183460469231731687303715884105727\xfdNnnnnnnnnnnnnnnnnnnnnnnnnnnnnnnnnnnnnnn\
\xfe170141183460469231731687303715884105728\xfd!!!!!!!!!!!!!!!!!!!!!!!!!!!!!!!!!!!!!!!\
\xfe0000170141183460469231731687303715884105727\xfdNnnnnnnnnnnnnnnnnnnnnnnnnnnnnnnnnnnnnnnnnnn\
\xfe99999999999999999999999999999999999999\xfdNnnnnnnnnnnnnnnnnnnnnnnnnnnnnnnnnnnnnn\
\xfe'a'\xfdTtt\
\xfe\"a\"\xfdTtt\
\xfe'a''b'\xfdTttttt\
\xfe\"a\"\"b\"\xfdTttttt\
\xfe'a\"b'\xfdTtttt\
\xfe\"a'b\"\xfdTtttt\
\xfe''\xfdTt\
\xfe''''\xfdTttt\
\xfe'''\xfd!!!\
\xfe'a\xfd!!\
\xfe'a''\xfd!!!!\
\xfea 'b\xfdW.!!\
\xfe'\\0\\b\\n\\r\\t\\Z'\xfdTttttttttttttt\
\xfe'\\%\\_'\xfdTttttt\
\xfe'\\'\\\"\\\\'\xfdTttttttt\
\xfe'\\q\\-'\xfdTttttt\
\xfe'\\'\xfd!!!\
\xfe'\\\\'\xfdTttt\
\xfe'a\\\n'\xfdTtttt\
\xfe'a\nb;'\xfdTttttt\
\xfe'a\x7f'\xfdTttt\
\xfe'a\x80'\xfd!!!!\
\xfe'\\\x80'\xfd!!!!\
\xfe'\x00'\xfdTtt\
\xfe`a b`\xfdQqqqq\
\xfe`a``b`\xfdQqqqqq\
\xfe``\xfd!!\
\xfe````\xfdQqqq\
\xfe`a\xfd!!\
\xfe`\\`\xfdQqq\
\xfe`a\x00`\xfd!!!!\
\xfe`a\x80`\xfd!!!!\
\xfe`nnnnnnnnnnnnnnnnnnnnnnnnnnnnnnnnnnnnnnnnnnnnnnnnnnnnnnnnnnnnnnnn`\xfdQqqqqqqqqqqqqqqqqqqqqqqqqqqqqqqqqqqqqqqqqqqqqqqqqqqqqqqqqqqqqqqqqq\
\xfe`nnnnnnnnnnnnnnnnnnnnnnnnnnnnnnnnnnnnnnnnnnnnnnnnnnnnnnnnnnnnnnnnn`\xfd!!!!!!!!!!!!!!!!!!!!!!!!!!!!!!!!!!!!!!!!!!!!!!!!!!!!!!!!!!!!!!!!!!!\
\xfex''\xfdBbb\
\xfeX'4f4F'\xfdBbbbbbb\
\xfex'6'\xfdWTtt\
\xfex'6g'\xfdWTttt\
\xfex\"41\"\xfdWTttt\
\xfex 'a'\xfdW.Ttt\
\xfexx'41'\xfdWwTttt\
\xfex'41'b\xfdBbbbbW\
\xfe0x1\xfdBbb\
\xfe0xAbC\xfdBbbbb\
\xfe0x\xfd!!\
\xfe0xg\xfd!!!\
\xfe0X41\xfd!!!!\
\xfe00x1\xfd!!!!\
\xfe0x41OR j=1\xfdBbbbWw.WSN\
\xfe_binary 'a'\xfdBbbbbbbbbbb\
\xfe_BINARY\t\"a\"\xfdBbbbbbbbbbb\
\xfe_binary'a'\xfdBbbbbbbbbb\
\xfe_binary '\x80\xff'\xfdBbbbbbbbbbbb\
\xfe_binary\xfdWwwwwww\
\xfe_binary x\xfdWwwwwww.W\
\xfe_binary 'a\xfdWwwwwww.!!\
\xfe_binary /**/ 'a'\xfdWwwwwww......Ttt\
\xfe_binaryx'41'\xfdWwwwwwwwTttt\
\xfe_binary 'a''b'\xfdBbbbbbbbbbbbbb\
\xfe--x\xfdSSW\
\xfe-- x\xfd....\
\xfe--\xfd..\
\xfea --\xfdW...\
\xfea--\nb\xfdW...W\
\xfe---1\xfdSSSN\
\xfe- -1\xfdS.SN\
\xfea # x\xfdW....\
\xfe#\xfd.\
\xfe# \x80\nb\xfd....W\
\xfe/* \x80 */b\xfd.......W\
\xfe-- \x80\xfd....\
\xfe/**/a\xfd....W\
\xfe/*/\xfd!!!\
\xfe/*/ */a\xfd......W\
\xfe/***/a\xfd.....W\
\xfe/*! SET */a\xfd..........W\
\xfe/* a\xfd!!!!\
\xfea / b\xfdW.!!!\
\xfe/\xfd!\
\xfe()<=>=<>!=<><\xfdSSSsSsSsSsSsS\
\xfea!\xfdW!\
\xfe!= !\xfdSs.!\
\xfea;\xfdW!\
\xfea\x80\xfdW!\
\xfe\x80\xfd!\
\xfe@\xfd!\
\xfea=b.c+-*,\xfdWSWSWSSSS\
\xfeINSERT INTO t VALUES(-1,'a''b',x'00',NULL)\xfdWwwwww.Wwww.W.WwwwwwSSNSTtttttSBbbbbSWwwwS\
";

#[test]
fn texts(rt: HostRuntime) {
    for row in TEXTS.split(|byte| *byte == 0xfe) {
        let (text, marks) = halves(row);
        assert!(rt; is_row(text, marks), "{text:?}");
    }
}

/// Scripts and what is told of each byte, End, Blank or Inside: 39 rows.
const SCRIPTS: &[u8] = b"\
\xfe\xfd\
\xfea;b\xfdIEI\
\xfe ;; \xfdBEEB\
\xfe';';\xfdIIIE\
\xfe\";\";\xfdIIIE\
\xfe`;`;\xfdIIIE\
\xfe'\\';';\xfdIIIIIE\
\xfe\"\\\";\";\xfdIIIIIE\
\xfe`\\`;\xfdIIIE\
\xfe'a'';';\xfdIIIIIIE\
\xfe-- ;\n;\xfdIBBBBE\
\xfe--\n;a\xfdIBBEI\
\xfe--;\xfdIBE\
\xfe-- \xfdIBB\
\xfe--a;\xfdIBIE\
\xfe---\n;\xfdIBIIE\
\xfe--- ;\xfdIBIII\
\xfe-;--;\xfdIEIBE\
\xfe# ;\n;a#\xfdBBBBEII\
\xfe#;\n'#';\xfdBBBIIIE\
\xfe/*;*/;\xfdIIIIBE\
\xfe/*/;*/;\xfdIIIIIBE\
\xfe/**;/*/;\xfdIIIIIIBE\
\xfe/***/;\xfdIIIIBE\
\xfe/;/*;\xfdIEIII\
\xfe/-- \n;\xfdIIIIIE\
\xfe5--1;x\xfdIIIIEI\
\xfea -- b;\n;c\xfdIIIIIIIIEI\
\xfe /* a */ -- b\n x;\xfdBIIIIIIBBIBBBBBIE\
\xfe--\t;\n;\xfdIBBBBE\
\xfe-\n-;\xfdIIIE\
\xfe/* \x80 */\x80;\xfdIIIIIIBIE\
\xfe'\x80;';\xfdIIIIE\
\xfe-/**/;\xfdIIIIIE\
\xfe--/*;\xfdIBIII\
\xfe#\xfdB\
\xfe--\xfdIB\
\xfe'a\\\xfdIII\
\xfeSELECT 1; -- end\xfdIIIIIIIIEBIBBBBB\
";

fn is_told(script: &[u8], marks: &[u8]) -> bool {
    let mut splitter = Splitter::new();
    for (byte, mark) in script.iter().zip(marks) {
        let told = match splitter.feed(*byte) {
            Split::End => b'E',
            Split::Blank => b'B',
            Split::Inside => b'I',
        };
        if told != *mark {
            return false;
        }
    }
    script.len() == marks.len()
}

#[test]
fn scripts(rt: HostRuntime) {
    for row in SCRIPTS.split(|byte| *byte == 0xfe) {
        let (script, marks) = halves(row);
        assert!(rt; is_told(script, marks), "{script:?}");
    }
    pieces_cut_alike();
}
