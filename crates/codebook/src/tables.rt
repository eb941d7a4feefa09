// Tables 18 and 19 as repaired, packed.
ghost use Rattle.std.specs.Prelude.{◌≡◌, ◌<◌};
ghost use Rattle.codebook.specs.Codebook.{row};
ghost use Rattle.codebook.specs.Packed.{code};
ghost use Rattle.codebook.specs.Rows.{twos, signs};

// Rows 0 to 127: 256 times the places of 2, and the places of -2
pub static TWOS: [u16; 128] = [
    1, 2, 4, 8, 16, 32, 64, 128, 256, 512, 1024, 2048, 4096, 8192, 16384, 32768, 3, 5, 9, 17, 33,
    65, 129, 6, 10, 18, 34, 66, 130, 12, 20, 36, 68, 132, 24, 40, 72, 136, 48, 80, 144, 96, 160,
    192, 513, 1025, 2049, 4097, 8193, 16385, 32769, 1026, 2050, 4098, 8194, 16386, 32770, 2052,
    4100, 8196, 16388, 32772, 4104, 8200, 16392, 32776, 8208, 16400, 32784, 16416, 32800, 32832,
    258, 260, 264, 272, 288, 320, 384, 516, 520, 528, 544, 576, 640, 1032, 1040, 1056, 1088, 1152,
    2064, 2080, 2112, 2176, 4128, 4160, 4224, 8256, 8320, 16512, 768, 1280, 2304, 4352, 8448,
    16640, 33024, 1536, 2560, 4608, 8704, 16896, 33280, 3072, 5120, 9216, 17408, 33792, 6144,
    10240, 18432, 34816, 12288, 20480, 36864, 24576, 40960, 49152,
];

// Rows 128 to 255: the byte of signs, a one for a -1
pub static SIGNS: [u8; 128] = [
    3, 5, 9, 17, 33, 65, 129, 6, 10, 18, 34, 66, 130, 12, 20, 36, 68, 132, 24, 40, 72, 136, 48, 80,
    144, 96, 160, 192, 15, 23, 39, 71, 135, 27, 43, 75, 139, 51, 83, 147, 195, 163, 99, 29, 45, 77,
    141, 53, 85, 149, 197, 165, 101, 113, 177, 209, 225, 57, 89, 153, 201, 169, 105, 240, 232, 216,
    184, 120, 228, 212, 180, 116, 204, 172, 108, 60, 92, 156, 226, 210, 178, 114, 202, 170, 106,
    58, 90, 154, 30, 46, 78, 142, 198, 166, 102, 54, 86, 150, 252, 250, 246, 238, 222, 190, 126,
    249, 245, 237, 221, 189, 125, 243, 235, 219, 187, 123, 231, 215, 183, 119, 207, 175, 111, 159,
    95, 63, 255, 0,
];

// The two tables, read in place.
#[derive(Clone, Copy)]
pub struct Tables {
    low: &'static [u16; 128],
    high: &'static [u8; 128],
    ghost low_kept: { low.now ≡ twos },
    ghost high_kept: { high.now ≡ signs },
}

impl Tables {
    pub fn packed() -> Tables {
        Tables {
            low: &TWOS,
            high: &SIGNS,
        }
    }

    // The code of a row
    pub fn code(&self, n: u8) -> u32
        ensures { (result ≡ code (row n)) × (result < 65536) }
    {
        self.code_at(usize::from(n))
    }

    // The same by a place, as a search counts them: of the first half it looks into the one table alone.
    pub fn code_at(&self, n: usize) -> u32
        requires { n < 256 }
        ensures { (result ≡ code (row n)) × (result < 65536) }
    {
        if n < 128 {
            u32::from(self.low[n])
        } else {
            let s = u32::from(self.high[n - 128]);
            (255 - s) * 256 + s
        }
    }
}
