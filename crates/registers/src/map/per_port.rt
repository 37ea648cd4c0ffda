// Which of the 256 offsets are per-port: true where the offset is paged by port, false where it is shared.
ghost use Rattle.std.specs.Prelude.{◌≡◌, map};
ghost use Rattle.laws.specs.Tables.{tabulate};
ghost use Rattle.registers.specs.RegisterMap.{per_port};

const PER_PORT: [bool; 256] = [
    // 0x00
    false, false, false, false, false, false, false, false, false, false, false, // SCL_HIGH_TIME
    false, // SCL_LOW_TIME
    false, false, false, false,
    // 0x10
    false, false, false, false, false, false, false, false, false, false, // FS_HIGH_TIME_1
    false, // FS_HIGH_TIME_0
    false, // FS_LOW_TIME_1
    false, // FS_LOW_TIME_0
    false, // MAX_FRM_HI
    false, // MAX_FRM_LO
    false, // CSI_PLL_CTL
    // 0x20
    false, // FWD_CTL1
    false, // FWD_CTL2
    false, false, false, false, false, false, false, false, false, false, false, false, false,
    false,
    // 0x30
    false, false, false, false, false, false, false, false, false, false, false, false, false,
    false, false, false,
    // 0x40
    false, false, false, false, false, false, false, false, false, false, false, false, false, // FPD3_PORT_SEL
    false, false, false,
    // 0x50
    false, false, false, false, false, false, false, false, true, // BCC_CONFIG
    false, false, true, // SER_ID
    true, // SER_ALIAS_ID
    true, // TARGET_ID_0
    true, // TARGET_ID_1
    true, // TARGET_ID_2
    // 0x60
    true, // TARGET_ID_3
    true, // TARGET_ID_4
    true, // TARGET_ID_5
    true, // TARGET_ID_6
    true, // TARGET_ID_7
    true, // TARGET_ALIAS_0
    true, // TARGET_ALIAS_1
    true, // TARGET_ALIAS_2
    true, // TARGET_ALIAS_3
    true, // TARGET_ALIAS_4
    true, // TARGET_ALIAS_5
    true, // TARGET_ALIAS_6
    true, // TARGET_ALIAS_7
    false, false, false,
    // 0x70
    true, // RAW10_ID
    true, // RAW12_ID
    false, false, false, false, false, false, false, false, false, false, false, false, false,
    false,
    // 0x80
    false, false, false, false, false, false, false, false, false, false, false, false, false,
    false, false, false,
    // 0x90
    false, false, false, false, false, false, false, false, false, false, false, false, false,
    false, false, false,
    // 0xA0
    false, false, false, false, false, false, false, false, false, false, false, false, false,
    false, false, false,
    // 0xB0
    false, false, false, false, // BIST_CTL
    false, false, false, // PAR_ERR_CTRL
    false, false, false, // LINK_ERROR_COUNT
    false, false, false, // FV_MIN_TIME
    false, false, // GPIO_PD_CTL
    false,
    // 0xC0
    false, false, false, false, false, false, false, false, false, false, false, false, false,
    false, false, false,
    // 0xD0
    false, false, false, false, false, false, false, false, false, false, false, false, false,
    false, false, false,
    // 0xE0
    false, false, false, false, false, false, false, false, false, false, false, false, false,
    false, false, false,
    // 0xF0
    false, false, false, false, false, false, false, false, false, false, false, false, false,
    false, false, false,
];

// The flags, with their rule.
pub fn per_port_flags() -> [bool; 256]
    ensures { result ≡ map per_port (tabulate (λ offset. offset) 256) }
{
    PER_PORT
}
