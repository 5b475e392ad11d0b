//! Reports on files, as they are written.
use crate::tests::{NO_RECORD, NO_RECORD_TOLD, parts_of};
use ans_model::start::Start;
use ans_play::{Picture, Player};
use ans_report::{Report, put_report, write_refusal, write_report};
use ans_samples::{puts, sample_file, start, writes};
use ans_sauce::{Fault, MAX_FILE, Parts};
use ans_screen::PlainGrid;
use std::process::Abort;
use std::test::Fail;

/// Asserts the report of how a play ended.
fn expect_end(
    rt: &impl Abort,
    parts: &Parts<'_>,
    start: Start,
    end: &Result<Picture<PlainGrid>, Fault>,
    cells: bool,
    text: &str,
) {
    let report = match end {
        Ok(picture) => Report::Pass {
            parts,
            start,
            picture,
            cells,
        },
        Err(fault) => Report::Refused {
            parts: Some(parts),
            start,
            fault: *fault,
        },
    };
    assert!(rt; puts(text.as_bytes(), |out| put_report(out, &report)));
}

/// Asserts the report on a content of one line and at most 255 bytes.
fn expect_report(
    rt: &(impl Abort + AllocGlobal),
    content: &[u8],
    width: u8,
    start: Start,
    cells: bool,
    text: &str,
) -> Result<(), Fail> {
    let mut front = Vec::from_slice(rt.alloc(), content)?;
    front.push(0x1A)?;
    let file_size = u8::try_from(content.len()).unwrap_or(0);
    let sizes = [file_size, 0, 0, 0, 1, 1, width];
    let file = sample_file(rt.alloc(), front.as_slice(), &[(90, &sizes)])?;
    let parts = parts_of(rt, &file);
    let mut player = Player::<PlainGrid>::new(rt.alloc(), parts.width(), parts.lines(), start)?;
    assert!(rt; player.fed() == 0 && content.len() <= MAX_FILE);
    let end = match player.feed(content) {
        Ok(()) => player.finish(),
        Err(fault) => Err(fault),
    };
    expect_end(rt, &parts, start, &end, cells, text);
    Ok(())
}

macro_rules! reports {
    ($($content:literal, $start:ident, cells: $cells:literal => $text:literal;)*) => {
        [$(($content, start!($start), $cells, $text)),*]
    };
}

/// Contents on 2 columns, the class of starts, whether the cells are asked for, and the reports.
static REPORTS: [(&[u8], Start, bool, &str); 4] = reports! {
    b"\x1b[?7h\x1b[0m\x1b[2JHi", any, cells: false
        => "size: 2 x 1\nstart: any\ncontent: 15 bytes\nverdict: pass\npicture:\nHi\n";
    b"Hi", cleared, cells: true
        => "size: 2 x 1\nstart: cleared\ncontent: 2 bytes\nverdict: pass\npicture:\nHi\ncells:\n48076907\n";
    b"\x1b[1;33;44mA\xdb", cleared, cells: true
        => "size: 2 x 1\nstart: cleared\ncontent: 12 bytes\nverdict: pass\npicture:\nA█\ncells:\n411edb1e\n";
    b"Hi", any, cells: false
        => "size: 2 x 1\nstart: any\ncontent: 2 bytes\nverdict: refused\nat 0: F22 print at an unknown place\n";
};

#[test]
fn reports_show_the_picture_or_the_fault(rt: HostRuntime) -> Result<(), Fail> {
    for (content, start, cells, text) in &REPORTS {
        expect_report(&rt, content, 2, *start, *cells, text)?;
    }
    Ok(())
}

#[test]
fn a_refusal_without_parts_is_two_lines(rt: HostRuntime) {
    assert!(rt;
        writes(NO_RECORD_TOLD, |device| {
            assert!(rt; !device.failed());
            let report: Report<'_, PlainGrid> = Report::Refused {
                parts: None,
                start: Start::ANY,
                fault: NO_RECORD,
            };
            write_report(device, &report)
        })
    );
    assert!(rt;
        writes(NO_RECORD_TOLD, |device| {
            assert!(rt; !device.failed());
            write_refusal(device, &NO_RECORD)
        })
    );
}

/// A row of the bytes that print and may occur in a content: all except BEL, BS, TAB, LF, CR, SUB and
/// ESC, by Unicode's table of code page 437 and the IBM glyphs; then its cells.
const ALL_GLYPHS: &str = "size: 249 x 1\n\
    start: cleared\n\
    content: 249 bytes\n\
    verdict: pass\n\
    picture:\n\
    \u{20}☺☻♥♦♣♠♂♀♫☼►◄↕‼¶§▬↨↑↓∟↔▲▼ !\"#$%&'()*+,-./0123456789:;<=>?@ABCDEFGHIJKL\
    MNOPQRSTUVWXYZ[\\]^_`abcdefghijklmnopqrstuvwxyz{|}~⌂ÇüéâäàåçêëèïîìÄÅÉæÆ\
    ôöòûùÿÖÜ¢£¥₧ƒáíóúñÑªº¿⌐¬½¼¡«»░▒▓│┤╡╢╖╕╣║╗╝╜╛┐└┴┬├─┼╞╟╚╔╩╦╠═╬╧╨╤╥╙╘╒╓╫╪┘\
    ┌█▄▌▐▀αßΓπΣσµτΦΘΩδ∞φε∩≡±≥≤⌠⌡÷≈°∙·√ⁿ²■\u{A0}\n\
    cells:\n\
    00070107020703070407050706070b070c070e070f07100711071207130714071507160717071807\
    19071c071d071e071f0720072107220723072407250726072707280729072a072b072c072d072e07\
    2f0730073107320733073407350736073707380739073a073b073c073d073e073f07400741074207\
    43074407450746074707480749074a074b074c074d074e074f075007510752075307540755075607\
    5707580759075a075b075c075d075e075f0760076107620763076407650766076707680769076a07\
    6b076c076d076e076f0770077107720773077407750776077707780779077a077b077c077d077e07\
    7f0780078107820783078407850786078707880789078a078b078c078d078e078f07900791079207\
    93079407950796079707980799079a079b079c079d079e079f07a007a107a207a307a407a507a607\
    a707a807a907aa07ab07ac07ad07ae07af07b007b107b207b307b407b507b607b707b807b907ba07\
    bb07bc07bd07be07bf07c007c107c207c307c407c507c607c707c807c907ca07cb07cc07cd07ce07\
    cf07d007d107d207d307d407d507d607d707d807d907da07db07dc07dd07de07df07e007e107e207\
    e307e407e507e607e707e807e907ea07eb07ec07ed07ee07ef07f007f107f207f307f407f507f607\
    f707f807f907fa07fb07fc07fd07fe07ff07\n";

#[test]
fn a_row_shows_every_glyph(rt: HostRuntime) -> Result<(), Fail> {
    let mut content = Vec::new(rt.alloc());
    for byte in 0..=255u8 {
        if !matches!(byte, 0x07..=0x0A | 0x0D | 0x1A | 0x1B) {
            content.push(byte)?;
        }
    }
    assert_eq!(rt; content.len(), 249);
    expect_report(
        &rt,
        content.as_slice(),
        249,
        Start::CLEARED,
        true,
        ALL_GLYPHS,
    )
}
