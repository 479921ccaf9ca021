use super::{BadImage, decode, encode, encode2};
use std::test::Fail;

#[test]
fn formats(rt: HostRuntime) -> Result<(), Fail> {
    let alloc = rt.alloc();
    let green = b"EVI1\x01\0\0\0\x01\0\0\0\xff\x00\xff\x00";
    let grey = b"EVI1\x01\0\0\0\x01\0\0\0\x80\x80\x80\x80";
    let green2 = b"EVI2\0\x01\0\0\0\x01\0\0\0\xff\x00\xff\x00";
    let grey2 = b"EVI2\x01\x01\0\0\0\x01\0\0\0\x80";
    let spellings: [(u32, &[u8], &[u8]); 2] = [
        (0xff00ff00, green, green2),
        (0x80808080, grey, grey2),
    ];
    for (bits, one, two) in spellings {
        let image = decode(alloc, one)?;
        assert_eq!(rt; (image.width(), image.height()), (1, 1));
        assert_eq!(rt; image.pixels()[0].bits(), bits);
        assert_eq!(rt; encode(alloc, &image)?.as_slice(), one);
        assert_eq!(rt; encode2(alloc, &image)?.as_slice(), two);
        let again = decode(alloc, two)?;
        assert_eq!(rt; encode(alloc, &again)?.as_slice(), one);
    }
    let faults: [(&[u8], BadImage); 9] = [
        (b"EVF1", BadImage::Magic),
        (b"EV", BadImage::Short { at: 2 }),
        (&green[..11], BadImage::Short { at: 11 }),
        (b"EVI2\x02\x01\0\0\0\x01\0\0\0\x80", BadImage::Kind),
        (b"EVI1\x01\0\0\0\x01\x10\0\0", BadImage::Size { at: 4 }),
        (b"EVI2\x01\0\0\0\0\x01\0\0\0\x80", BadImage::Size { at: 5 }),
        (&grey2[..13], BadImage::Short { at: 13 }),
        (
            b"EVI1\x01\0\0\0\x01\0\0\0\xff\x00\xff\x00\0",
            BadImage::Long { at: 16 },
        ),
        (
            b"EVI1\x01\0\0\0\x01\0\0\0\x80\x81\0\0",
            BadImage::Premul { at: 12 },
        ),
    ];
    for (bytes, fault) in faults {
        assert_eq!(rt; decode(alloc, bytes).err(), Some(fault));
    }
    Ok(())
}
