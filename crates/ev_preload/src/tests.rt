ghost use Rattle.std.specs.Prelude.{◌≡◌, true};
ghost use Rattle.ev_preload.specs.Job.{is_loadable};

use super::{LoadEnd, LoadJob, Preloads, fault_of, load_one};
use ev_model::{FontFault, ImageFault, Kind, LoadFault, Name, Refusal};
use ev_port::{Bytes, MemStore, StoredFile};
use std::alloc::Global;
use std::test::Fail;

// What is told where the file of this key is loaded for an object of this kind.
fn told(alloc: Global, store: &mut MemStore, key: &Name, kind: Kind) -> Option<LoadFault>
    requires { is_loadable kind ≡ true }
{
    fault_of(&load_one(alloc, store, &LoadJob::new(1, 1, *key, kind, *key)))
}

#[test]
fn loads(rt: HostRuntime) -> Result<(), Fail> {
    let alloc = rt.alloc();
    let dot = b"EVI1\x01\0\0\0\x01\0\0\0\xff\x00\xff\x00".as_slice();
    let mut files = Vec::new(alloc);
    for (key, bytes) in [(b"dot.evi", dot), (b"cut.evi", &dot[..15])] {
        files.push(StoredFile {
            key: Bytes::new(key.to_vec(alloc)?),
            bytes: Bytes::new(bytes.to_vec(alloc)?),
        })?;
    }
    let mut store = MemStore::new(files, [4].to_vec(alloc)?);
    let short = LoadFault::Image {
        kind: ImageFault::Short,
        at: 15,
    };
    let rows: [(&[u8], Option<LoadFault>); 4] = [
        (b"dot.evi", None),
        (b"cut.evi", Some(short)),
        (b"far.evi", Some(LoadFault::Missing)),
        (b"dot.evi", Some(LoadFault::Store)),
    ];
    for (key, fault) in rows {
        let Some(key) = Name::read(key) else {
            panic!(rt; "no name");
        };
        assert_eq!(rt; told(alloc, &mut store, &key, Kind::Image), fault);
    }
    let Some(key) = Name::read(b"dot.evi") else {
        panic!(rt; "no name");
    };
    let no_font = LoadFault::Font {
        kind: FontFault::Magic,
        at: 0,
    };
    assert_eq!(rt; told(alloc, &mut store, &key, Kind::Text), Some(no_font));
    let mut preloads = Preloads::new(alloc)?;
    assert_eq!(rt;
        preloads.begin(7, key, Kind::Image, None).err(),
        Some(Refusal::NoFile)
    );
    assert_eq!(rt; preloads.begin(7, key, Kind::Image, Some(key)).err(), None);
    assert_eq!(rt;
        preloads.begin(7, key, Kind::Image, Some(key)).err(),
        Some(Refusal::Loading)
    );
    preloads.hold(1, LoadEnd::Missing);
    assert_eq!(rt; preloads.collect(2).is_none(), true);
    assert_eq!(rt; preloads.collect(1).is_some(), true);
    assert_eq!(rt; preloads.running(), 0);
    assert_eq!(rt; preloads.begin(8, key, Kind::Image, Some(key)).err(), None);
    assert_eq!(rt; preloads.begin(9, key, Kind::Text, Some(key)).err(), None);
    preloads.hold(2, LoadEnd::Missing);
    assert_eq!(rt; preloads.first_held(), Some(2));
    assert_eq!(rt; preloads.to_serve().map(|job| job.number()), Some(3));
    assert_eq!(rt; preloads.running_at(1).map(|job| job.id()), Some(9));
    assert_eq!(rt; preloads.cancel(8).map(|job| job.number()), Ok(2));
    assert_eq!(rt; preloads.cancel(8).err(), Some(Refusal::NotLoading));
    assert_eq!(rt; preloads.is_loading(9), true);
    Ok(())
}
