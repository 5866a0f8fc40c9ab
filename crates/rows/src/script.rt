//! Lines of generated loads.

use bd_script::Generator;
use std::alloc::{AllocError, Global};
use std::test::Fail;

/// The first 30 lines of generated loads, by their seeds, as `tools/lines` prints them.
const FIRST: &[(u32, &str)] = &[
    (
        0,
        "\
            mkdir /d0\n\
            mkdir /d1\n\
            mkdir /d2\n\
            mkdir /d3\n\
            mkdir /d4\n\
            mkdir /d5\n\
            mkdir /d6\n\
            mkdir /d7\n\
            read /d0/f17 3444 64\n\
            remove /d0/f7\n\
            read /d2/f6 2109 64\n\
            remove /c35\n\
            remove /c141\n\
            remove /d1/f23\n\
            write /d0/f26 2532 2121212121212121212121212121212121212121212121212121212121212121\n\
            remove /d2/f23\n\
            create /d3/f49\n\
            write /d7/f43 2388 8686868686868686868686868686868686868686868686868686868686868686\n\
            write /d7/f57 2185 9393939393939393939393939393939393939393939393939393939393939393\n\
            write /d2/f12 2882 0b0b0b0b0b0b0b0b0b0b0b0b0b0b0b0b0b0b0b0b0b0b0b0b0b0b0b0b0b0b0b0b\n\
            create /d6/f53\n\
            remove /c62\n\
            create /d6/f56\n\
            write /d4/f62 489 1313131313131313131313131313131313131313131313131313131313131313\n\
            create /d5/f49\n\
            create /d7/f56\n\
            create /d6/f47\n\
            write /d0/f61 1733 c0c0c0c0c0c0c0c0c0c0c0c0c0c0c0c0c0c0c0c0c0c0c0c0c0c0c0c0c0c0c0c0\n\
            write /d4/f50 839 afafafafafafafafafafafafafafafafafafafafafafafafafafafafafafafaf\n\
            create /d1/f34\n",
    ),
    (
        1,
        "\
            mkdir /d0\n\
            mkdir /d1\n\
            mkdir /d2\n\
            mkdir /d3\n\
            mkdir /d4\n\
            mkdir /d5\n\
            mkdir /d6\n\
            mkdir /d7\n\
            write /d1/f12 2790 5a5a5a5a5a5a5a5a5a5a5a5a5a5a5a5a5a5a5a5a5a5a5a5a5a5a5a5a5a5a5a5a\n\
            create /d2/f54\n\
            remove /d2/f60\n\
            clone /d2/f31 /d2/g31\n\
            remove /d5/f30\n\
            create /d4/f32\n\
            read /d2/f28 197 64\n\
            truncate /d2/f42 220\n\
            read /d4/f10 440 64\n\
            write /d4/f5 303 a2a2a2a2a2a2a2a2a2a2a2a2a2a2a2a2a2a2a2a2a2a2a2a2a2a2a2a2a2a2a2a2\n\
            truncate /d0/f60 1986\n\
            write /d6/f51 2423 0606060606060606060606060606060606060606060606060606060606060606\n\
            write /d6/f44 3637 6767676767676767676767676767676767676767676767676767676767676767\n\
            read /d3/f56 1698 64\n\
            create /d5/f49\n\
            create /d1/f6\n\
            create /d3/f55\n\
            create /d0/f51\n\
            write /d0/f63 1366 4141414141414141414141414141414141414141414141414141414141414141\n\
            create /d5/f4\n\
            write /d0/f30 3658 0e0e0e0e0e0e0e0e0e0e0e0e0e0e0e0e0e0e0e0e0e0e0e0e0e0e0e0e0e0e0e0e\n\
            clone /d4 /c108\n",
    ),
    (
        4_294_967_295,
        "\
            mkdir /d0\n\
            mkdir /d1\n\
            mkdir /d2\n\
            mkdir /d3\n\
            mkdir /d4\n\
            mkdir /d5\n\
            mkdir /d6\n\
            mkdir /d7\n\
            read /d4/f16 3851 64\n\
            read /d0/f40 1407 64\n\
            clone /d2 /c160\n\
            create /d7/f24\n\
            create /d1/f3\n\
            truncate /d0/f6 708\n\
            create /d6/f47\n\
            write /d0/f0 4071 7f7f7f7f7f7f7f7f7f7f7f7f7f7f7f7f7f7f7f7f7f7f7f7f7f7f7f7f7f7f7f7f\n\
            write /d7/f34 2243 3b3b3b3b3b3b3b3b3b3b3b3b3b3b3b3b3b3b3b3b3b3b3b3b3b3b3b3b3b3b3b3b\n\
            write /d5/f50 752 bfbfbfbfbfbfbfbfbfbfbfbfbfbfbfbfbfbfbfbfbfbfbfbfbfbfbfbfbfbfbfbf\n\
            create /d7/f20\n\
            write /d4/f9 568 0808080808080808080808080808080808080808080808080808080808080808\n\
            write /d3/f17 3830 0101010101010101010101010101010101010101010101010101010101010101\n\
            create /d5/f23\n\
            create /d0/f38\n\
            create /d6/f3\n\
            write /d3/f4 1339 8686868686868686868686868686868686868686868686868686868686868686\n\
            create /d7/f46\n\
            create /d5/f14\n\
            clone /d2/f43 /d2/g43\n\
            create /d5/f40\n\
            clone /d1 /c255\n",
    ),
];

/// Lines of generated loads, in the order in which they are asked for: the seed, the index of each
/// line, and the lines, as `tools/lines` prints them.
const GENERATED: &[(u32, &[u64], &str)] = &[
    (
        0,
        &[58, 16, 31, 37, 8, 100_007, 13, 3],
        "\
            clone /d0/f45 /d0/g45\n\
            create /d3/f49\n\
            truncate /d5/f29 3721\n\
            clone /d0 /c59\n\
            read /d0/f17 3444 64\n\
            clone /d3 /c72\n\
            remove /d1/f23\n\
            mkdir /d3\n",
    ),
    (
        1,
        &[29, 36, 15, 14, 8],
        "\
            clone /d4 /c108\n\
            remove /c101\n\
            truncate /d2/f42 220\n\
            read /d2/f28 197 64\n\
            write /d1/f12 2790 5a5a5a5a5a5a5a5a5a5a5a5a5a5a5a5a5a5a5a5a5a5a5a5a5a5a5a5a5a5a5a5a\n",
    ),
    (
        4_294_967_295,
        &[45, 58, 27, 13, 100_007],
        "\
            remove /c49\n\
            remove /d6/f51\n\
            clone /d2/f43 /d2/g43\n\
            truncate /d0/f6 708\n\
            clone /d7 /c141\n",
    ),
];

/// Some lines of the load of a seed, each with its newline.
fn lines_of(alloc: Global, seed: u32, indices: &[u64]) -> Result<Vec<u8>, AllocError> {
    let mut generator = Generator::new(seed, 100_000);
    let mut text = Vec::new(alloc);
    for index in indices {
        if *index < generator.lines() {
            let line = generator.line(alloc, *index)?;
            text.extend_from_slice(line.as_slice())?;
            text.push(b'\n')?;
        }
    }
    Ok(text)
}

/// The first numbers.
const FIRST_INDICES: &[u64] = &[
    0, 1, 2, 3, 4, 5, 6, 7, 8, 9, 10, 11, 12, 13, 14, 15, 16, 17, 18, 19, 20, 21, 22, 23, 24, 25,
    26, 27, 28, 29,
];

#[test]
fn loads_begin_by_the_rule(rt: HostRuntime) -> Result<(), Fail> {
    for (seed, want) in FIRST {
        let found = lines_of(rt.alloc(), *seed, FIRST_INDICES)?;
        assert!(rt; found.as_slice() == want.as_bytes(), "seed {seed}");
    }
    Ok(())
}

#[test]
fn loads_are_generated(rt: HostRuntime) -> Result<(), Fail> {
    for (seed, indices, want) in GENERATED {
        let found = lines_of(rt.alloc(), *seed, *indices)?;
        assert!(rt; found.as_slice() == want.as_bytes(), "seed {seed}");
    }
    Ok(())
}
