//! Encodings that NASM made and that ndisasm read back, and bytes that are no instruction of the table.
//!
//! Each line of `WRITTEN` came from its text by `nasm -f bin -o row.bin row.asm` (NASM 2.16, the file being `bits 16` and the text), and
//! `ndisasm -b 16 row.bin` gave a text that assembles to the same bytes. Where NASM chooses another form than `encode` (the source in
//! the register field between two registers, F3 before the segment prefix), the bytes were written by hand and the text is
//! ndisasm's; so are the lines of `READ`, which are longer or other spellings of what `encode` writes. There ndisasm's `byte +`, its
//! prefixes without effect and its `+0x0` were dropped, and the registers of XCHG stand in the order of their numbers.

/// Bytes that `decode` reads as the text and `encode` writes for it.
pub const WRITTEN: &str = "\
00 87 7F FF | add [bx-0x81],al\n\
3E 01 46 04 | add [ds:bp+0x4],ax\n\
02 BD 80 00 | add bh,[di+0x80]\n\
26 03 7F 02 | add di,[es:bx+0x2]\n\
04 12 | add al,0x12\n\
05 34 12 | add ax,0x1234\n\
80 C1 F0 | add cl,0xf0\n\
80 83 34 12 20 | add byte [bp+di+0x1234],0x20\n\
81 C1 00 12 | add cx,0x1200\n\
81 06 9E 8F 00 80 | add word [0x8f9e],0x8000\n\
83 C1 80 | add cx,0xff80\n\
83 41 05 70 | add word [bx+di+0x5],0x70\n\
08 0F | or [bx],cl\n\
36 09 4C FE | or [ss:si-0x2],cx\n\
0A 76 00 | or dh,[bp+0x0]\n\
2E 0B 36 40 00 | or si,[cs:0x40]\n\
0C 13 | or al,0x13\n\
0D 35 12 | or ax,0x1235\n\
80 CA F1 | or dl,0xf1\n\
80 4C 7F 21 | or byte [si+0x7f],0x21\n\
81 CA 01 12 | or dx,0x1201\n\
3E 81 0A 01 80 | or word [ds:bp+si],0x8001\n\
10 52 80 | adc [bp+si-0x80],dl\n\
11 96 34 12 | adc [bp+0x1234],dx\n\
12 28 | adc ch,[bx+si]\n\
13 AF 7F FF | adc bp,[bx-0x81]\n\
14 14 | adc al,0x14\n\
15 36 12 | adc ax,0x1236\n\
80 D3 F2 | adc bl,0xf2\n\
3E 80 56 04 22 | adc byte [ds:bp+0x4],0x22\n\
81 D3 02 12 | adc bx,0x1202\n\
81 95 80 00 02 80 | adc word [di+0x80],0x8002\n\
83 D3 82 | adc bx,0xff82\n\
26 83 57 02 72 | adc word [es:bx+0x2],0x72\n\
18 9B 34 12 | sbb [bp+di+0x1234],bl\n\
19 1E 9E 8F | sbb [0x8f9e],bx\n\
1A 61 05 | sbb ah,[bx+di+0x5]\n\
1B 27 | sbb sp,[bx]\n\
1C 15 | sbb al,0x15\n\
1D 37 12 | sbb ax,0x1237\n\
80 DC F3 | sbb ah,0xf3\n\
36 80 5C FE 23 | sbb byte [ss:si-0x2],0x23\n\
81 DC 03 12 | sbb sp,0x1203\n\
81 5E 00 03 80 | sbb word [bp+0x0],0x8003\n\
83 DC 83 | sbb sp,0xff83\n\
2E 83 1E 40 00 73 | sbb word [cs:0x40],0x73\n\
20 64 7F | and [si+0x7f],ah\n\
3E 21 22 | and [ds:bp+si],sp\n\
22 5A 80 | and bl,[bp+si-0x80]\n\
23 9E 34 12 | and bx,[bp+0x1234]\n\
24 16 | and al,0x16\n\
25 38 12 | and ax,0x1238\n\
80 E5 F4 | and ch,0xf4\n\
80 20 24 | and byte [bx+si],0x24\n\
81 E5 04 12 | and bp,0x1204\n\
81 A7 7F FF 04 80 | and word [bx-0x81],0x8004\n\
3E 28 6E 04 | sub [ds:bp+0x4],ch\n\
29 AD 80 00 | sub [di+0x80],bp\n\
26 2A 57 02 | sub dl,[es:bx+0x2]\n\
2B 93 34 12 | sub dx,[bp+di+0x1234]\n\
2C 17 | sub al,0x17\n\
2D 39 12 | sub ax,0x1239\n\
80 EE F5 | sub dh,0xf5\n\
80 2E 9E 8F 25 | sub byte [0x8f9e],0x25\n\
81 EE 05 12 | sub si,0x1205\n\
81 69 05 05 80 | sub word [bx+di+0x5],0x8005\n\
83 EE 85 | sub si,0xff85\n\
83 2F 75 | sub word [bx],0x75\n\
36 30 74 FE | xor [ss:si-0x2],dh\n\
31 76 00 | xor [bp+0x0],si\n\
2E 32 0E 40 00 | xor cl,[cs:0x40]\n\
33 4C 7F | xor cx,[si+0x7f]\n\
34 18 | xor al,0x18\n\
35 3A 12 | xor ax,0x123a\n\
80 F7 F6 | xor bh,0xf6\n\
3E 80 32 26 | xor byte [ds:bp+si],0x26\n\
81 F7 06 12 | xor di,0x1206\n\
81 72 80 06 80 | xor word [bp+si-0x80],0x8006\n\
38 BE 34 12 | cmp [bp+0x1234],bh\n\
39 38 | cmp [bx+si],di\n\
3A 87 7F FF | cmp al,[bx-0x81]\n\
3E 3B 46 04 | cmp ax,[ds:bp+0x4]\n\
3C 19 | cmp al,0x19\n\
3D 3B 12 | cmp ax,0x123b\n\
80 F9 F7 | cmp cl,0xf7\n\
80 BD 80 00 27 | cmp byte [di+0x80],0x27\n\
81 F9 07 12 | cmp cx,0x1207\n\
26 81 7F 02 07 80 | cmp word [es:bx+0x2],0x8007\n\
83 F9 87 | cmp cx,0xff87\n\
83 BB 34 12 77 | cmp word [bp+di+0x1234],0x77\n\
40 | inc ax\n\
FE C0 | inc al\n\
48 | dec ax\n\
50 | push ax\n\
58 | pop ax\n\
41 | inc cx\n\
49 | dec cx\n\
51 | push cx\n\
59 | pop cx\n\
42 | inc dx\n\
4A | dec dx\n\
52 | push dx\n\
5A | pop dx\n\
43 | inc bx\n\
4B | dec bx\n\
53 | push bx\n\
5B | pop bx\n\
44 | inc sp\n\
4C | dec sp\n\
54 | push sp\n\
5C | pop sp\n\
45 | inc bp\n\
4D | dec bp\n\
55 | push bp\n\
5D | pop bp\n\
46 | inc si\n\
4E | dec si\n\
56 | push si\n\
5E | pop si\n\
47 | inc di\n\
4F | dec di\n\
57 | push di\n\
5F | pop di\n\
06 | push es\n\
07 | pop es\n\
0E | push cs\n\
16 | push ss\n\
17 | pop ss\n\
1E | push ds\n\
1F | pop ds\n\
FE 06 9E 8F | inc byte [0x8f9e]\n\
FE 49 05 | dec byte [bx+di+0x5]\n\
F6 17 | not byte [bx]\n\
36 F6 5C FE | neg byte [ss:si-0x2]\n\
F6 66 00 | mul byte [bp+0x0]\n\
2E F6 2E 40 00 | imul byte [cs:0x40]\n\
F6 74 7F | div byte [si+0x7f]\n\
3E F6 3A | idiv byte [ds:bp+si]\n\
FF 42 80 | inc word [bp+si-0x80]\n\
FF 8E 34 12 | dec word [bp+0x1234]\n\
F7 10 | not word [bx+si]\n\
F7 9F 7F FF | neg word [bx-0x81]\n\
3E F7 66 04 | mul word [ds:bp+0x4]\n\
F7 AD 80 00 | imul word [di+0x80]\n\
26 F7 77 02 | div word [es:bx+0x2]\n\
F7 BB 34 12 | idiv word [bp+di+0x1234]\n\
F6 D3 | not bl\n\
F7 D6 | not si\n\
F6 DB | neg bl\n\
F7 DE | neg si\n\
F6 E3 | mul bl\n\
F7 E6 | mul si\n\
F6 EC | imul ah\n\
F7 EF | imul di\n\
F6 F3 | div bl\n\
F7 F6 | div si\n\
F6 FC | idiv ah\n\
F7 FF | idiv di\n\
FE C6 | inc dh\n\
FE CB | dec bl\n\
70 80 | jo short $-0x7e\n\
71 01 | jno short $+0x3\n\
72 82 | jb short $-0x7c\n\
73 03 | jnb short $+0x5\n\
74 84 | je short $-0x7a\n\
75 05 | jne short $+0x7\n\
76 86 | jbe short $-0x78\n\
77 07 | ja short $+0x9\n\
78 88 | js short $-0x76\n\
79 09 | jns short $+0xb\n\
7A 8A | jp short $-0x74\n\
7B 0B | jnp short $+0xd\n\
7C 8C | jl short $-0x72\n\
7D 0D | jnl short $+0xf\n\
7E 8E | jle short $-0x70\n\
7F 0F | jg short $+0x11\n\
84 08 | test [bx+si],cl\n\
85 F2 | test dx,si\n\
84 DC | test ah,bl\n\
85 5E 10 | test [bp+0x10],bx\n\
A8 55 | test al,0x55\n\
A9 A5 5A | test ax,0x5aa5\n\
F6 C1 01 | test cl,0x1\n\
F7 06 00 01 00 80 | test word [0x100],0x8000\n\
26 F6 05 7F | test byte [es:di],0x7f\n\
91 | xchg ax,cx\n\
97 | xchg ax,di\n\
86 17 | xchg dl,[bx]\n\
87 73 FE | xchg si,[bp+di-0x2]\n\
88 40 7F | mov [bx+si+0x7f],al\n\
88 89 80 00 | mov [bx+di+0x80],cl\n\
A0 34 12 | mov al,[0x1234]\n\
A1 34 12 | mov ax,[0x1234]\n\
A2 34 12 | mov [0x1234],al\n\
A3 34 12 | mov [0x1234],ax\n\
26 A0 10 00 | mov al,[es:0x10]\n\
2E A3 20 00 | mov [cs:0x20],ax\n\
8A 0E 34 12 | mov cl,[0x1234]\n\
89 16 34 12 | mov [0x1234],dx\n\
8B 9E 34 12 | mov bx,[bp+0x1234]\n\
26 A3 9E 8F | mov [es:0x8f9e],ax\n\
C6 07 12 | mov byte [bx],0x12\n\
C7 46 00 34 12 | mov word [bp+0x0],0x1234\n\
36 C7 06 06 00 FF FF | mov word [ss:0x6],0xffff\n\
B0 01 | mov al,0x1\n\
B1 11 | mov cl,0x11\n\
B2 21 | mov dl,0x21\n\
B3 31 | mov bl,0x31\n\
B4 41 | mov ah,0x41\n\
B5 51 | mov ch,0x51\n\
B6 61 | mov dh,0x61\n\
B7 71 | mov bh,0x71\n\
B8 21 00 | mov ax,0x21\n\
B9 21 10 | mov cx,0x1021\n\
BA 21 20 | mov dx,0x2021\n\
BB 21 30 | mov bx,0x3021\n\
BC 21 40 | mov sp,0x4021\n\
BD 21 50 | mov bp,0x5021\n\
BE 21 60 | mov si,0x6021\n\
BF 21 70 | mov di,0x7021\n\
8C C0 | mov ax,es\n\
8C 0F | mov [bx],cs\n\
8C D6 | mov si,ss\n\
8C 5D 04 | mov [di+0x4],ds\n\
8E C0 | mov es,ax\n\
8E 56 FE | mov ss,[bp-0x2]\n\
8E DA | mov ds,dx\n\
8D 40 05 | lea ax,[bx+si+0x5]\n\
8D 66 80 | lea sp,[bp-0x80]\n\
8D 3E 34 12 | lea di,[0x1234]\n\
8F 47 02 | pop word [bx+0x2]\n\
FF 34 | push word [si]\n\
90 | nop\n\
98 | cbw\n\
99 | cwd\n\
9C | pushf\n\
9D | popf\n\
A4 | movsb\n\
F3 A4 | rep movsb\n\
26 A4 | es movsb\n\
AA | stosb\n\
F3 AA | rep stosb\n\
A5 | movsw\n\
F3 A5 | rep movsw\n\
26 A5 | es movsw\n\
AB | stosw\n\
F3 AB | rep stosw\n\
C2 34 12 | ret 0x1234\n\
C2 02 00 | ret 0x2\n\
C3 | ret\n\
CF | iret\n\
D0 C0 | rol al,1\n\
D1 C7 | rol di,1\n\
D2 C7 | rol bh,cl\n\
D3 C0 | rol ax,cl\n\
D0 06 9E 8F | rol byte [0x8f9e],1\n\
D3 41 05 | rol word [bx+di+0x5],cl\n\
D0 C9 | ror cl,1\n\
D1 CE | ror si,1\n\
D2 CE | ror dh,cl\n\
D3 C9 | ror cx,cl\n\
D0 0F | ror byte [bx],1\n\
36 D3 4C FE | ror word [ss:si-0x2],cl\n\
D0 E2 | shl dl,1\n\
D1 E5 | shl bp,1\n\
D2 E5 | shl ch,cl\n\
D3 E2 | shl dx,cl\n\
D0 66 00 | shl byte [bp+0x0],1\n\
2E D3 26 40 00 | shl word [cs:0x40],cl\n\
D0 EB | shr bl,1\n\
D1 EC | shr sp,1\n\
D2 EC | shr ah,cl\n\
D3 EB | shr bx,cl\n\
D0 6C 7F | shr byte [si+0x7f],1\n\
3E D3 2A | shr word [ds:bp+si],cl\n\
D0 FC | sar ah,1\n\
D1 FB | sar bx,1\n\
D2 FB | sar bl,cl\n\
D3 FC | sar sp,cl\n\
D0 7A 80 | sar byte [bp+si-0x80],1\n\
D3 BE 34 12 | sar word [bp+0x1234],cl\n\
E2 EE | loop $-0x10\n\
E3 1E | jcxz $+0x20\n\
E4 60 | in al,0x60\n\
E5 40 | in ax,0x40\n\
EC | in al,dx\n\
ED | in ax,dx\n\
E6 20 | out 0x20,al\n\
E7 43 | out 0x43,ax\n\
EE | out dx,al\n\
EF | out dx,ax\n\
E8 31 12 | call $+0x1234\n\
E9 FD 01 | jmp near $+0x200\n\
E9 FD 8F | jmp near $-0x7000\n\
EA 00 E0 00 F0 | jmp 0xf000:0xe000\n\
EB FC | jmp short $-0x2\n\
FF D3 | call bx\n\
FF 57 02 | call word [bx+0x2]\n\
FF E6 | jmp si\n\
26 FF 27 | jmp word [es:bx]\n\
FF 26 20 00 | jmp word [0x20]\n\
F4 | hlt\n\
F5 | cmc\n\
F8 | clc\n\
F9 | stc\n\
FA | cli\n\
FB | sti\n\
FC | cld\n\
FD | std\n\
02 C7 | add al,bh\n\
03 F8 | add di,ax\n\
0A CE | or cl,dh\n\
0B F1 | or si,cx\n\
12 D5 | adc dl,ch\n\
13 EA | adc bp,dx\n\
1A DC | sbb bl,ah\n\
1B E3 | sbb sp,bx\n\
22 E3 | and ah,bl\n\
23 DC | and bx,sp\n\
2A EA | sub ch,dl\n\
2B D5 | sub dx,bp\n\
32 F1 | xor dh,cl\n\
33 CE | xor cx,si\n\
3A F8 | cmp bh,al\n\
3B C7 | cmp ax,di\n\
8A E1 | mov ah,cl\n\
8B EC | mov bp,sp\n\
8B C3 | mov ax,bx\n\
87 CA | xchg cx,dx\n\
86 C4 | xchg al,ah\n\
87 FF | xchg di,di\n\
36 F3 A4 | ss rep movsb\n\
26 F3 A5 | es rep movsw";

/// Other bytes that `decode` reads as the text.
pub const READ: &str = "\
01 C3 | add bx,ax\n\
30 E0 | xor al,ah\n\
89 D8 | mov ax,bx\n\
88 C4 | mov ah,al\n\
81 C3 05 00 | add bx,0x5\n\
80 C0 05 | add al,0x5\n\
83 C0 05 | add ax,0x5\n\
81 3E 34 12 FF FF | cmp word [0x1234],0xffff\n\
FF C0 | inc ax\n\
FF C9 | dec cx\n\
FF F4 | push sp\n\
8F C3 | pop bx\n\
C6 C1 07 | mov cl,0x7\n\
C7 C6 34 12 | mov si,0x1234\n\
87 D1 | xchg cx,dx\n\
87 C1 | xchg ax,cx\n\
87 C8 | xchg ax,cx\n\
86 E0 | xchg al,ah\n\
8A 06 34 12 | mov al,[0x1234]\n\
89 06 34 12 | mov [0x1234],ax\n\
8B 47 00 | mov ax,[bx]\n\
8B 87 05 00 | mov ax,[bx+0x5]\n\
8B 86 00 00 | mov ax,[bp+0x0]\n\
3E 8B 07 | mov ax,[bx]\n\
36 8A 46 02 | mov al,[bp+0x2]\n\
3E A1 34 12 | mov ax,[0x1234]\n\
F6 C0 55 | test al,0x55\n\
F7 C0 A5 5A | test ax,0x5aa5\n\
3E A4 | movsb\n\
F3 3E A5 | rep movsw\n\
F3 26 A4 | es rep movsb\n\
2E 8D 07 | lea ax,[bx]\n\
F3 36 AB | rep stosw\n\
26 90 | nop\n\
3E EB 10 | jmp short $+0x12\n\
36 50 | push ax";

/// Bytes that no form begins.
pub const REFUSED: &str = "\
26\n\
F3\n\
26 26 90\n\
F3 F3 A4\n\
26 F3 26 A4\n\
F3 90\n\
F3 8B C3\n\
0F\n\
27\n\
60\n\
6F 00\n\
82 C0 01\n\
83 C8 01\n\
83 E0 01\n\
83 F0 01\n\
8C E0\n\
8C F8\n\
8D C0\n\
8E C8\n\
8E E0\n\
8F C8\n\
9A 00 00 00 00\n\
9B\n\
9E\n\
A6\n\
AC\n\
AE\n\
C0 C0 01\n\
C4 07\n\
C6 C8 01\n\
CA 00 00\n\
CB\n\
CC\n\
CD 21\n\
CE\n\
D0 D0\n\
D0 F0\n\
D2 D8\n\
D4 0A\n\
D7\n\
D8 C0\n\
E0 00\n\
E1 00\n\
F0 90\n\
F2 A4\n\
F6 C8 01\n\
FE D0\n\
FE F0\n\
FF DB\n\
FF 2F\n\
FF F8\n\
8B\n\
8B 47\n\
8B 87 05\n\
B8 34\n\
EA 00 00 00\n\
F7 C0 01";
