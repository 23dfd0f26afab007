//! Names in a log.

use std::test::Fail;
use turn_log::ShownName;

/// All bytes, in order, as Python's `urllib.parse.quote` writes them where each printable character but a percent sign is safe, with its
/// hexadecimal digits in lower case.
const SHOWN: &str = "\
    %00%01%02%03%04%05%06%07%08%09%0a%0b%0c%0d%0e%0f%10%11%12%13%14%15%16%17%18%19%1a%1b%1c%1d%1e%1f\
    %20!\"#$%25&'()*+,-./0123456789:;<=>?@ABCDEFGHIJKLMNOPQRSTUVWXYZ[\\]^_`abcdefghijklmnopqrstuvwxy\
    z{|}~%7f%80%81%82%83%84%85%86%87%88%89%8a%8b%8c%8d%8e%8f%90%91%92%93%94%95%96%97%98%99%9a%9b%9c%\
    9d%9e%9f%a0%a1%a2%a3%a4%a5%a6%a7%a8%a9%aa%ab%ac%ad%ae%af%b0%b1%b2%b3%b4%b5%b6%b7%b8%b9%ba%bb%bc%\
    bd%be%bf%c0%c1%c2%c3%c4%c5%c6%c7%c8%c9%ca%cb%cc%cd%ce%cf%d0%d1%d2%d3%d4%d5%d6%d7%d8%d9%da%db%dc%\
    dd%de%df%e0%e1%e2%e3%e4%e5%e6%e7%e8%e9%ea%eb%ec%ed%ee%ef%f0%f1%f2%f3%f4%f5%f6%f7%f8%f9%fa%fb%fc%\
    fd%fe%ff";

#[test]
fn each_byte_of_a_name_is_shown(rt: HostRuntime) -> Result<(), Fail> {
    let mut name = Vec::new(rt.alloc());
    for byte in 0..=u8::MAX {
        name.push(byte)?;
    }
    let shown = ShownName(&name);
    let text = format!(in rt.alloc(); "{shown}")?;
    if text.as_str() != SHOWN {
        return Err(Fail::new(text.as_str()));
    }
    Ok(())
}
