use super::{BadFont, decode_font, glyph_bit, text_pixels, text_row, text_size};
use ev_argb::Pixel;
use std::test::Fail;

// A font of height 1, whose glyphs are 1 wide and all empty but that of `A`.
fn one_row() -> [u8; 480] {
    let mut bytes = [0; 480];
    bytes[..4].copy_from_slice(b"EVF1");
    bytes[4] = 1;
    bytes[5..100].fill(1);
    bytes[232] = 1;
    bytes
}

#[test]
fn fonts(rt: HostRuntime) -> Result<(), Fail> {
    let alloc = rt.alloc();
    let bytes = one_row();
    let font = decode_font(alloc, &bytes)?;
    let text = b"A A".as_slice();
    let white = Pixel::new(255, 255, 255, 255);
    assert_eq!(rt; text_size(&font, text), (3, 1));
    assert_eq!(rt;
        (glyph_bit(&font, b'A', 0, 0), glyph_bit(&font, b'A', 0, 1)),
        (true, false)
    );
    let mut bits = [false; 4];
    text_row(&font, text, 0, 0, &mut bits);
    assert_eq!(rt; bits, [true, false, true, false]);
    let mut pixels = [white; 3];
    text_pixels(&font, text, 0, 0, &mut pixels);
    assert_eq!(rt; pixels, [white, Pixel::CLEAR, white]);
    let faults: [(usize, u8, usize, BadFont); 8] = [
        (3, b'2', 480, BadFont::Magic),
        (3, b'1', 3, BadFont::Short { at: 3 }),
        (4, 0, 99, BadFont::Short { at: 99 }),
        (4, 33, 480, BadFont::Height),
        (99, 33, 479, BadFont::Width { glyph: 94 }),
        (232, 2, 479, BadFont::Short { at: 479 }),
        (232, 2, 481, BadFont::Long { at: 480 }),
        (232, 2, 480, BadFont::Bits { glyph: 33 }),
    ];
    for (place, value, len, fault) in faults {
        let mut changed = [0; 481];
        changed[..480].copy_from_slice(&bytes);
        changed[place.min(480)] = value;
        assert_eq!(rt;
            decode_font(alloc, &changed[..len.min(481)]).err(),
            Some(fault)
        );
    }
    Ok(())
}
