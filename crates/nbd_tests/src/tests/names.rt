//! Texts that name an export.

use turn_nbd::{Export, Place, is_uri};

#[test]
fn texts_name_exports(rt: HostRuntime) {
    for (text, name, path) in [
        ("nbd+unix:///?socket=/run/turn/store", "", "/run/turn/store"),
        ("nbd+unix:///a/b?socket=/", "a/b", "/"),
    ] {
        let export = Export::parse(text).expect(&rt, "an export");
        assert!(rt; export.name == name, "{text}");
        assert!(rt;
            matches!(export.place, Place::Unix(found) if found == path),
            "{text}"
        );
    }
    for (text, name, ip, port) in [
        ("nbd://127.0.0.1:1234/", "", 0x7f00_0001u32, 1_234),
        ("nbd://10.0.0.2/a/b", "a/b", 0x0a00_0002u32, 10_809),
    ] {
        let export = Export::parse(text).expect(&rt, "an export");
        assert!(rt; export.name == name, "{text}");
        assert!(rt;
            matches!(export.place, Place::Tcp(at) if at.ip == ip && at.port == port),
            "{text}"
        );
    }
}

#[test]
fn other_texts_name_none(rt: HostRuntime) {
    for text in [
        "nbd+unix:///a",
        "nbd+unix://a?socket=/b",
        "nbd+unix:///a?socket=b",
        "nbd+unix:///a?socket=/b?c",
        "nbd+unix:///%41?socket=/b",
        "nbd+unix:///a?tls=1",
        "nbd://127.0.0.1:1234",
        "nbd://127.0.0.1:65536/",
        "nbd://localhost/",
        "nbd://127.0.0.1/a?b",
        "nbds://127.0.0.1/",
        "nbd:",
    ] {
        assert!(rt; is_uri(text), "{text}");
        assert!(rt; Export::parse(text).is_none(), "{text}");
    }
    for path in ["", "nbd", "./nbd:a", "/var/lib/turn/store"] {
        assert!(rt; !is_uri(path), "{path}");
    }
}
