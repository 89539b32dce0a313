// Sheets as C calls them.
ghost use Rattle.std.specs.Prelude.{◌≡◌, length, take};
ghost use Rattle.planning.specs.Basics.{code};
ghost use Rattle.planning.specs.Calls.{write_call, write_bytes, read_call, read_list, read_marks};
ghost use Rattle.sheet.specs.Answers.{sheet};
ghost use Rattle.sheet.specs.Again.{ReadsAs, WritesAs};
ghost use Rattle.mardiskos.specs.Results.{size_in, sheet_read_of};

use codes::code;

// Writing a sheet: 0 and the count of bytes, or 32 times the place and the number.
#[repr(C)]
#[derive(Clone, Copy, Default)]
pub struct SheetSize {
    pub code: u64,
    pub bytes: u32,
}

// The sheet of a list and its marks in the front of the bytes, of edition 1 for the number 1 and of edition 2 for any other, or the refusal
// by 13, 11.
#[unsafe(no_mangle)]
pub extern "C" fn mardiskos_write_sheet(
    list: &[u16],
    marks: &[u8],
    edition: u32,
    cost: u32,
    real: bool,
    bytes: &mut [u8],
) -> SheetSize
    ensures code_value { result.code ≡ code (write_call (sheet edition list.now marks.now cost real) (length bytes.old)) }
    ensures bytes_value { result.bytes ≡ size_in (write_call (sheet edition list.now marks.now cost real) (length bytes.old)) }
    ensures bytes_after { bytes.new ≡ write_bytes (sheet edition list.now marks.now cost real) (length bytes.old) }
    ensures reads_as { result.code ≡ 0 → ReadsAs (take result.bytes bytes.new) (sheet edition list.now marks.now cost real) }
{
    let answer = writer::write(list, marks, edition, cost, real, bytes);
    let Ok(n) = answer else {
        return SheetSize {
            code: code(answer),
            ..SheetSize::default()
        };
    };
    SheetSize { code: 0, bytes: n }
}

// Reading a sheet: 0 with the steps, the cost, the edition and the verdict, or 32 times the place and the number.
#[repr(C)]
#[derive(Clone, Copy, Default)]
pub struct SheetRead {
    pub code: u64,
    pub steps: u32,
    pub cost: u32,
    pub edition: u32,
    pub real: bool,
}

// The plan of a sheet in the front of the list and its marks in that of the mark area, or the refusal by 12, 11.
#[unsafe(no_mangle)]
pub extern "C" fn mardiskos_read_sheet(
    bytes: &[u8],
    list: &mut [u16],
    marks: &mut [u8],
) -> SheetRead
    ensures value { result ≡ sheet_read_of (read_call bytes.now (length list.old) (length marks.old)) }
    ensures list_after { list.new ≡ read_list bytes.now (length list.old) (length marks.old) }
    ensures marks_after { marks.new ≡ read_marks bytes.now (length list.old) (length marks.old) }
    ensures writes_as { result.code ≡ 0 → WritesAs (sheet result.edition (take result.steps list.new) (take result.steps marks.new) result.cost result.real) bytes.now }
{
    let answer = reader::read(bytes, list, marks);
    let Ok(heading) = answer else {
        return SheetRead {
            code: code(answer),
            ..SheetRead::default()
        };
    };
    SheetRead {
        code: 0,
        steps: heading.steps,
        cost: heading.cost,
        edition: heading.edition,
        real: heading.real,
    }
}
