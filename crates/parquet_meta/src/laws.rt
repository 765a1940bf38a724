// What holds of the definitions. The functions do nothing: their clauses are laws.
ghost use Rattle.std.specs.Prelude.{◌≡◌, ℕ, List, ◌++◌, Ok};
ghost use Rattle.parquet_meta.specs.declared.page_header.PageHeader.{PageHeader as Header};
ghost use Rattle.parquet_meta.specs.declared.file_meta.FileMeta.{FileMeta as Footer};
ghost use Rattle.parquet_meta.specs.Footers.{footer_of};
ghost use Rattle.parquet_meta.specs.PageHeaders.{page_header_at};
ghost use Rattle.parquet_meta.specs.Structs.{IsFooter, IsHeader};
ghost use Rattle.parquet_meta.specs.Written.{page_header_bytes, file_meta_bytes, FitsFileMeta};
ghost use Rattle.parquet_meta.specs.ReadBack.{IsTypedHeader, IsTypedFileMeta, meta_read};

/// A written page header is read back, whatever follows it.
pub fn written_headers_are_read()
    ensures { (h : Header) (rest : List ℕ) → IsTypedHeader h →
        page_header_at (page_header_bytes h ++ rest) ≡ Ok (h, rest) }
{}

/// A footer that `write_meta` takes is read back, but that its elements don't keep whether they are texts.
pub fn written_footers_are_read()
    ensures { (m : Footer) → FitsFileMeta m → IsTypedFileMeta m → footer_of (file_meta_bytes m) ≡ Ok (meta_read m) }
{}

/// What is read as a footer is one, with nothing behind it, and each footer is read.
pub fn footers_are_structs()
    ensures found { (m : Footer) (bytes : List ℕ) → footer_of bytes ≡ Ok m → IsFooter m bytes }
    ensures again { (m : Footer) (bytes : List ℕ) → IsFooter m bytes → footer_of bytes ≡ Ok m }
{}

/// What is read as a page's header is one, with the bytes that are left behind it, and each header is read, whatever follows it.
pub fn headers_are_structs()
    ensures found { (h : Header) (bytes rest : List ℕ) → page_header_at bytes ≡ Ok (h, rest) →
        (header : List ℕ) × (bytes ≡ header ++ rest) × IsHeader h header }
    ensures again { (h : Header) (header rest : List ℕ) → IsHeader h header →
        page_header_at (header ++ rest) ≡ Ok (h, rest) }
{}
